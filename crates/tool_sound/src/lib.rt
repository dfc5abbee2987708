// The sound that the tools read and write: the heading of a WAV file, masters of 16 bits, how far two sounds agree; and its forms.
#![tactic(auto)]

pub mod comparing;
pub mod masters;
pub mod sounds;
pub mod wave;
