// `Plan` (trait): ghost constants of a run, carried in its types: the lists of calls, the starts and the files that it was
// given.

use hart_calls::RunBrand;
use std::marker::Brand;

/// Ghost constants of a run: the lists of calls, the starts and the files that it was given. A contract knows a value under a
/// lock by its type alone, so these are in the type. Each run picks its own.
pub trait Plan: RunBrand {
    ghost use Rattle.std.specs.Prelude.{List};
    ghost use Rattle.process_model.specs.declared.call.Call.{Call};
    ghost use Rattle.process_model.specs.declared.call.Start.{Start};
    ghost use Rattle.process_model.specs.Files.{File};

    ghost lists: { List (List Call) };

    ghost plan: { List Start };

    ghost files: { List File };
}

impl Plan for Brand {
    ghost use Rattle.run_roster.specs.Plans.{no_files, no_lists, no_plan};

    ghost lists = { no_lists };

    ghost plan = { no_plan };

    ghost files = { no_files };
}
