//! All queries of a run together: how many vectors of all their challenges a helper can win by. And
//! a panel of helpers: each query asked of one after another, until the replies of one are
//! accepted.
//!
//! The promise on a run, `JointClause`, stands beside the others that `check_stream` makes, in the
//! verifier's crate; here are the laws about it, and the same count over every prime modulus.
//! [`panel`] carries the same promise for its seats, so that its helpers may act as one.
//!
//! # The definitions to read
//!
//! | file | what it defines |
//! |---|---|
//! | `JointClause` of `sip_verifier` | a run's queries as those of one count; the promise |
//! | `specs/JointCounts` | the same count modulo any prime, and what its bound asks for |
//! | `specs/Examples` | what the examples work out |
//! | `specs/Panels` | seats, and in which order helpers are asked which queries |
//! | `specs/PanelExchanges` | what the ports of a panel tell |
//! | `specs/PanelEnds` | the talk of each link and the lines, by the status |
//! | `specs/PanelCounts` | the joint count of the seats |
//! | `specs/PanelHonesty` | why honest helpers may be dropped, and what they come to |
//! | `specs/Links` | what holds of each link, as it was and as it is now |
//! | `specs/PanelClause` | all that [`panel`] promises, of any helpers and of honest ones |
//! | `NegativesClause` of `sip_verifier` | which sides had a delta below 0, which it tells too |
//!
//! `specs/inside/` says what the private parts of a panel did. No promise rests on a reading of it.
//!
//! A query's row in the table of kinds says how its replies are read and how many values of one
//! challenge let a wrong answer pass: so each kind is counted here as it is alone, and a share as
//! the threshold that it comes to. What there is to read of a joint strategy are its keys: for
//! reply j to query k, counted from 0 and from 1, the first (k - 1)·d + j of all challenges, d
//! being the depth.
//!
//! # The laws
//!
//! - [`counting`]: the **joint bound** over every prime modulus, and that legal streams meet what
//!   it asks; that where nothing is asked for heavy entries there are none; that the promise on a
//!   run follows from that of verdicts, and that on a panel from its attempts; and that each talk
//!   is some joint strategy's.
//! - [`honesty`]: why honest helpers of a panel are dropped; that a panel with one answers each
//!   query unless memory runs out; and that one of honest helpers alone gives the stream's own
//!   answers. [`panel`] promises the three of each run.
//! - [`examples`]: counts worked out one by one; [`turns`]: the same for the turns of a panel.
#![tactic(auto)]

pub mod counting;
pub mod examples;
mod farewells;
mod hearing;
pub mod honesty;
mod panel_asking;
mod panels;
pub mod turns;

pub use panels::panel;
