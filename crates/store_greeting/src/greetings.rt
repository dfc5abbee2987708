// What may be a greeting (document 02, R-6): "1 or more octets that the walk accepts"; with all tools, since R-14 set 255.
ghost use Rattle.std.specs.Prelude.{◌≡◌};
ghost use Rattle.store_greeting.specs.Bad.{is_bad};

// "BAD if the walk, room never short, refuses or the greeting is empty".
pub fn is_bad(octets: &[u8], law: u32) -> bool
    ensures { result ≡ is_bad law octets.now }
{
    let len = octets.len();
    if len < 1 || rules::MOST_LAW < law || rules::LONGEST < len {
        return true;
    }
    let walked = walk::walk_on(octets, law, rules::ALL_TOOLS, 0, len + 1, 320 * len);
    walked.end.is_err()
}
