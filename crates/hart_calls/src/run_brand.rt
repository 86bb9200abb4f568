// `RunBrand` (trait): ghost constants of a run on threads, carried in its types: the table of its frames, the table of its
// vouchers (linear tokens, one for each unfinished process), and the number of its starts.

use std::marker::Brand;

/// Ghost constants of a run: the table of its frames, the table of its vouchers (`token_table`; each unfinished process has a
/// voucher), and the number of its starts. A contract knows a value under a lock by its type alone, so these are in the
/// type. Each run picks its own.
pub trait RunBrand {
    ghost use Rattle.std.specs.Prelude.{ℕ};
    ghost use Rattle.atomic_table.specs.Seated.{TableId};

    ghost table: { TableId };

    ghost token_table: { TableId };

    ghost starts: { ℕ };
}

impl RunBrand for Brand {
    ghost use Rattle.hart_calls.specs.Rooms.{no_table};

    ghost table = { no_table };

    ghost token_table = { no_table };

    ghost starts = { 0 };
}
