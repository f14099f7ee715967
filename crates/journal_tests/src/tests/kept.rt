//! A kept book: crashes, damage, room and failing writes.

mod books;
mod crashes;
mod damage;
mod failed;
mod requests;
mod room;
mod seen;
mod steps;
mod writes;
