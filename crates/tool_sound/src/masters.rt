// Masters of signed 16-bit values, low octet first, as samples of a law, and back. The shift is that of crate `linear_masters`.
ghost use Rattle.std.specs.Prelude.{◌≡◌};
ghost use Rattle.tool_sound.specs.Masters.{sample_for, value_of, value_for, Splits, Sounds, Masters};

// The sample of a value of two octets.
fn sample_for(law: u32, low: u8, high: u8) -> u8
    ensures { result ≡ sample_for law (value_of low high) }
{
    linear_masters::sample_for(law, i16::from_le_bytes([low, high]))
}

// The two octets of a sample's value.
fn pair_for(law: u32, octet: u8) -> [u8; 2]
    ensures { Splits (value_for law octet) result }
{
    linear_masters::value_for(law, octet).to_le_bytes()
}

// The samples of a master, as many as it has and as fit. The answer is how many. A turn takes two octets and lays one.
pub fn sound_of(master: &[u8], law: u32, out: &mut [u8]) -> usize
    ensures { Sounds law master.now out.old out.new result }
{
    let n = out.len().min(master.len() / 2);
    for i in 0..n {
        out[i] = sample_for(law, master[2 * i], master[2 * i + 1]);
    }
    n
}

// The master of samples, as many as there are and as fit. The answer is how many octets. A turn takes one octet and lays two.
pub fn master_of(sound: &[u8], law: u32, out: &mut [u8]) -> usize
    ensures { Masters law sound.now out.old out.new result }
{
    let n = sound.len().min(out.len() / 2);
    for i in 0..n {
        let [low, high] = pair_for(law, sound[i]);
        out[2 * i] = low;
        out[2 * i + 1] = high;
    }
    2 * n
}
