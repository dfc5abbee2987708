// Document 01, "Samples as signed numbers", with the law's mask 55 (A) or 7F (mu).
#![tactic(auto)]

ghost use Rattle.std.specs.Prelude.{◌≡◌, ◌<◌};
ghost use Rattle.rules.specs.Samples.{mask_of, signed, sample_of, plus_zero, minus_zero};

// The mask of a law: 0 is A, all else mu. A call refuses a law above 1 before it comes here.
pub fn mask_of(law: u32) -> u8
    ensures { result ≡ mask_of law }
{
    if law == 0 { 0x55 } else { 0x7F }
}

// "y is the sample xor mask, low 7 bits; it maps to y if the sample is 128 or more, else to -y - 1".
// No call of ours asks it: it stands here because document 01 names this map and its signed result (its "right form for each place").
pub fn signed_of(mask: u8, sample: u8) -> i8
    ensures { result ≡ signed mask sample }
{
    let y = ((sample ^ mask) % 128) as i8;
    if 128 <= sample { y } else { -1 - y }
}

// The sample of a signed number.
pub fn sample_of(mask: u8, v: i8) -> u8
    requires { mask < 128 }
    ensures { result ≡ sample_of mask v }
{
    if v < 0 {
        ((-1 - v) as u8) ^ mask
    } else {
        128 + ((v as u8) ^ mask)
    }
}

// "plus zero is 0"
pub fn plus_zero(mask: u8) -> u8
    requires { mask < 128 }
    ensures { result ≡ plus_zero mask }
{
    sample_of(mask, 0)
}

// "minus zero is -1"
pub fn minus_zero(mask: u8) -> u8
    requires { mask < 128 }
    ensures { result ≡ minus_zero mask }
{
    sample_of(mask, -1)
}
