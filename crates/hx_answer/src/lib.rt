//! What each command answers: what it reads, what its output takes, what is told of it, and its status. `specs/Answers.antt` says
//! what an answer means.
#![tactic(auto)]

mod advice;
mod advising;
mod answer;
mod digits;
mod explaining;
mod replaying;
mod status;

pub use advising::{Advised, advice_of, advised_of, answer_advise};
pub use answer::{answer_check, answer_execution, answer_replay, answer_words};
pub use explaining::{Asked, Kept, answer_explain, explain_check, explain_execution};
pub use replaying::{NoTrace, Replayed, Schedule, Shown, replay_of};
pub use status::{
    Status, tell_memory, tell_no_number, tell_read_failed, tell_refusal, tell_write_failed,
};
