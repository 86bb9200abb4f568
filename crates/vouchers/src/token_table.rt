// `TokenTable`, a struct: the table at which an issuer issues and redeems tokens (vouchers, each for one entry on the
// issuer's list): `open`, `issue`, `redeem`. `Giving`, a trait: names the entry of a token for contracts.

ghost use Rattle.std.specs.Prelude.{◌≡◌, [], ◌∷◌, IfOk};
ghost use Rattle.atomic_table.specs.Seated.{TableId};
ghost use Rattle.vouchers.specs.Entries.{TokenEntry, Has, without, nameless};
ghost use Rattle.vouchers.specs.IssuerSeats.{given_of, held_of, KeepsAt, HoldsAt};

use crate::holders::{Token, TokenIssuer};
use crate::seat_view::{Learn, SeatView, TokenInvariant};
use atomic_table::{Join, Split, Table};
use std::alloc::{AllocError, Global};
use std::marker::{Brand, Model, PhantomData};

/// The table at which an issuer issues and redeems tokens. Contracts see it as its identity.
#[derive(Drop)]
pub struct TokenTable {
    table: Table<(), SeatView, usize, TokenInvariant, Global>,
}

impl Model for TokenTable {
    ghost Value = { TableId };

    ghost view = { λ token_table. token_table.table.shared.table_id };

    ghost invariant = { λ token_table. token_table.table.shared.table_id.words ≡ 1 };
}

/// Names the entry of a token for contracts. The caller's proof chooses it.
pub trait Giving {
    ghost entry: { TokenEntry };
}

impl Giving for Brand {
    ghost entry = { nameless };
}

struct Gives<G> {
    giving: PhantomData<G>,
}

impl<G: Giving> Split<SeatView> for Gives<G> {
    ghost use Rattle.vouchers.specs.Entries.{gave, voucher_view};

    ghost left = { gave G.entry };

    ghost right = { λ _. voucher_view G.entry };
}

struct Takes;

impl Join<SeatView> for Takes {
    ghost use Rattle.vouchers.specs.Entries.{took, spent_view};

    ghost both = { took };

    ghost spent = { spent_view };
}

impl TokenTable {
    /// Makes a table, and returns it with its issuer, whose list is empty: no token is issued.
    ///
    /// # Errors
    /// `AllocError`: the host is out of memory.
    pub fn open(alloc: Global) -> Result<(TokenTable, TokenIssuer), AllocError>
        ensures issuer { IfOk result (λ r. KeepsAt r.0 r.1) }
        ensures none { IfOk result (λ r. given_of r.1 ≡ []) }
    {
        let words = [0u64];
        let (table, seat) = Table::of_words(alloc, &words, &1)?;
        Ok((TokenTable { table }, TokenIssuer { seat }))
    }

    /// Issues a token for the entry of `G`, which the caller's proof chooses, and returns the token; the entry is added
    /// at the front of the issuer's list. The issuer must be that of this table. An entry may be issued several times.
    /// `from` has the values that the choice depends on; the code does not read it. Cannot fail.
    pub fn issue<G: Giving, T>(&self, issuer: &mut TokenIssuer, from: &T) -> Token
        requires issuer { KeepsAt self.now issuer.old }
        ensures issuer { KeepsAt self.now issuer.new }
        ensures token { HoldsAt self.now result }
        ensures given { given_of issuer.new ≡ G.entry ∷ given_of issuer.old }
        ensures held { held_of result ≡ G.entry ∷ [] }
    {
        let _ = from;
        Token {
            seat: self.table.shared.split_seat::<Gives<G>>(&mut issuer.seat),
        }
    }

    /// Redeems a token that holds one entry, and ends it: the entry was on the issuer's list, and its first occurrence
    /// there is removed. Issuer and token must be of this table. Cannot fail.
    pub fn redeem(&self, issuer: &mut TokenIssuer, token: Token)
        requires issuer { KeepsAt self.now issuer.old }
        requires token { HoldsAt self.now token }
        requires one { (e : TokenEntry) × (held_of token ≡ e ∷ []) }
        ensures issuer { KeepsAt self.now issuer.new }
        ensures listed { (e : TokenEntry) → held_of token ≡ e ∷ [] → Has e (given_of issuer.old) }
        ensures given { (e : TokenEntry) → held_of token ≡ e ∷ [] → given_of issuer.new ≡ without e (given_of issuer.old) }
    {
        let Token { seat } = token;
        self.table.shared.join_seat::<Takes>(&mut issuer.seat, seat);
        self.table.shared.load::<Learn>(&mut issuer.seat, 0);
    }
}
