//! Frames as bytes: what a crash, a cut or a changed byte leaves of them.

mod crashes;
mod damage;
mod frames;
mod reading;
