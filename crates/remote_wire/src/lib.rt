//! The wire between a store and the clients that are far from it: requests and answers as bytes, and back.
//!
//! Read first `specs/Spelling.antt` (the bytes of a request) and `specs/Requests.antt` (how it is read), and then
//! `specs/AnswerSpelling.antt` and `specs/Answers.antt`, which also says which answer belongs to which request. The laws
//! between them are in `specs/Laws.antt` and `specs/AnswerLaws.antt`.
#![tactic(auto)]

mod answer;
mod answer_laws;
mod answer_limits;
mod answer_tags;
mod answering;
mod feeds;
mod laws;
mod limits;
mod observed;
mod part;
mod request;
mod requesting;
mod suiting;
mod tags;
mod telling;
mod values;
mod wire_error;
mod witnesses;
mod writes;

pub use answer::{Given, WireAnswer};
pub use answer_laws::{answers_are_read, what_is_read_is_an_answer};
pub use answer_limits::LONGEST_ANSWER;
pub use answering::{decode_answer, encode_answer};
pub use laws::{requests_are_read, what_is_read_is_a_request};
pub use limits::LONGEST_REQUEST;
pub use request::{Base, BaseList, Request};
pub use requesting::{decode_request, encode_request};
pub use wire_error::WireError;
