//! What lies outside of the program: files that a crash may leave torn, sector by sector, and a place to print.
//!
//! A depot is seen as one record, [`World`](specs/World.antt): its files where it tells them, what a crash may leave
//! of each at each moment where it tells that, its counts of failed calls, the text printed. Each call says what
//! becomes of that record, whatever it answers. The layers above cite the laws of [`Laws`](proofs/Laws.antt).
#![tactic(auto)]

mod depot;

pub use depot::{Console, Depot, Failed, FileNo, Made, Outside, WriteRefusal};
