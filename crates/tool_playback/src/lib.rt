// Frames and items back to sound, part by part. A stream is a recording without losses, so there is one playback for both.
//   parts: the next items.      telling: what is said of them.      playing: their sound used, of octets and of a file, window by window.
//   kinds: what a file is.
#![tactic(auto)]

pub mod kinds;
pub mod parts;
pub mod playing;
pub mod telling;
