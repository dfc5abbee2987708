// A move of octets down within one block, chunk by chunk, that a cut of power may stop anywhere: one step, and the record after it.
// What a step leaves stands in specs/Moves, what the record's words mean in specs/Record.
ghost use Rattle.std.specs.Prelude.{◌≡◌, ◌+◌, ◌≤◌, ◌<◌, length};
ghost use Rattle.store_moves.specs.Moves.{distance, lasts, onward, stepped, Tells};
ghost use Rattle.store_moves.specs.Record.{move_of, sensible, told_by, words_of, words_for, MoveStep, Short, Fits};

// MOVE: the record tells of no move in this block.
pub const MOVE: u32 = 27;

// Octets go from `from` to `to`; so many are done.
#[derive(Clone, Copy)]
pub struct Move {
    pub from: usize,
    pub to: usize,
    pub octets: usize,
    pub done: usize,
}

// What the record tells, its states 0, 1 and 2; in the last the next chunk is whole in the spare.
#[derive(Drop)]
pub enum State {
    Still,
    Moving(Move),
    Lifted(Move),
}

// "`done` grows": so many more are done.
fn grown(m: Move, k: usize) -> State
    requires { m.done + k ≤ m.octets }
    ensures { result ≡ onward m k }
{
    let done = m.done + k;
    if m.octets <= done {
        return State::Still;
    }
    State::Moving(Move {
        from: m.from,
        to: m.to,
        octets: m.octets,
        done: done,
    })
}

// "A step in state 1": a chunk goes directly, or into the spare.
fn hop_or_lift(block: &mut [u8], spare: &mut [u8], m: Move) -> State
    requires { Tells block.old m }
    ensures { stepped block.old spare.old (State.Moving m)
        ≡ lasts block.new spare.new result }
{
    let d = m.from - m.to;
    let left = m.octets - m.done;
    let from = m.from + m.done;
    let size = spare.len();
    if size <= d {
        let k = left.min(d);
        store_rows::closing::shift(block, from, m.to + m.done, k);
        return grown(m, k);
    }
    let end = from + left.min(size);
    rules::copy_over(&mut spare[..end - from], &block[from..end]);
    State::Lifted(m)
}

// "A step in state 2": the chunk goes out of the spare.
fn lay(block: &mut [u8], spare: &[u8], m: Move) -> State
    requires tells { Tells block.old m }
    requires m_in_bounds { distance m < length spare.now }
    ensures { stepped block.old spare.now (State.Lifted m)
        ≡ lasts block.new spare.now result }
{
    let k = (m.octets - m.done).min(spare.len());
    let to = m.to + m.done;
    rules::copy_over(&mut block[to..to + k], &spare[..k]);
    grown(m, k)
}

fn move_of(words: &[u32; 8]) -> Move
    ensures { result ≡ move_of words.now }
{
    Move {
        from: words[2] as usize,
        to: words[3] as usize,
        octets: words[4] as usize,
        done: words[5] as usize,
    }
}

// Down, inside the block, and not all done.
fn makes_sense(size: usize, m: Move) -> bool
    ensures { result ≡ sensible size m }
{
    m.to < m.from && m.octets <= size && m.from <= size - m.octets && m.done < m.octets
}

// The move that the record's words tell of; still where they tell of none.
fn told(size: usize, spare: usize, words: &[u32; 8]) -> State
    ensures { result ≡ told_by size spare words.now }
{
    if 1 < words[0] || 0 < words[6] || 0 < words[7] {
        return State::Still;
    }
    let m = move_of(words);
    if !makes_sense(size, m) {
        return State::Still;
    }
    match words[1] {
        1 => State::Moving(m),
        2 if m.from - m.to < spare => State::Lifted(m),
        _ => State::Still,
    }
}

fn tell_move(next: &mut [u32; 8], page: u32, state: u32, m: Move)
    requires { Short m }
    ensures { next.new ≡ words_for page state m }
{
    *next = [
        page,
        state,
        m.from as u32,
        m.to as u32,
        m.octets as u32,
        m.done as u32,
        0,
        0,
    ];
}

// The record's words after a step; still, the other page is in use.
fn tell(next: &mut [u32; 8], page: u32, state: State)
    requires page_bound { page ≤ 1 }
    requires fits { Fits state }
    ensures { next.new ≡ words_of page state }
{
    match state {
        State::Still => {
            let zero = Move {
                from: 0,
                to: 0,
                octets: 0,
                done: 0,
            };
            tell_move(next, 1 - page, 0, zero);
        }
        State::Moving(m) => {
            tell_move(next, page, 1, m);
        }
        State::Lifted(m) => {
            tell_move(next, page, 2, m);
        }
    }
}

// One chunk of the move that the record tells of, and in `next` the record after it; or MOVE, and nothing is changed.
pub fn move_step(block: &mut [u8], spare: &mut [u8], words: &[u32; 8], next: &mut [u32; 8]) -> u32
    ensures { MoveStep block.old spare.old words.now next.old
        block.new spare.new next.new result }
{
    let size = store_rows::rows::size_of(block.len());
    let state = told(size, spare.len(), words);
    match state {
        State::Still => {
            return MOVE;
        }
        State::Moving(m) => {
            let after = hop_or_lift(block, spare, m);
            tell(next, words[0], after);
            return 0;
        }
        State::Lifted(m) => {
            let after = lay(block, spare, m);
            tell(next, words[0], after);
            return 0;
        }
    }
}
