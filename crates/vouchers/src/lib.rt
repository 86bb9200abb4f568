//! Vouchers: tokens that cannot be copied (`Token`), each for one entry on the list of an issuer (`TokenIssuer`), issued
//! and redeemed at a table (`TokenTable`). `run_roster` gives one to each unfinished process, so that none gets lost.
//! The issuer may be kept under a lock; its list has the entry of each token that is issued and not yet redeemed. A token
//! may be sent to any thread.
//!
//! The entries on the issuer's list are exactly those that tokens hold, counted with repetitions: this is the invariant of
//! one table of atomic words (`specs/IssuerInvariant.antt`), and every step keeps it. So to redeem a token shows that its entry
//! is on the issuer's list, and removes one occurrence of it. Issuer and tokens take no bytes at run time; the table has one
//! word, which stays 0.
#![tactic(auto)]

mod holders;
mod seat_view;
mod token_table;

pub use holders::{Token, TokenIssuer};
pub use seat_view::SeatView;
pub use token_table::{Giving, TokenTable};
