// A case of the program calls: its head, what it is given, the buffers that it lends, and how an answer and these buffers are written.
// Nothing here is promised but that it ends well: tests/second holds what the program writes to its own answers.
#![tactic(auto)]

pub mod answer;
mod coded;
pub mod given;
pub mod head;
pub mod lent;
