//! Theorems about the model of processes (`process_model`): the headline (what a process may rely on in every run), and laws
//! that the definitions obey, of frame accounts, file mappings, places of mappings, regions, page-fault service and worlds,
//! and wrong kernels that the headline excludes; for a reader who asks whether the definitions say what they should.
//!
//! Each function does nothing. Its `ensures` clauses are the theorem.
#![tactic(auto)]

mod accounts;
mod files;
mod headline;
mod places;
mod refusals;
mod regions;
mod service;
mod worlds;

pub use accounts::{fork_shares_every_page, frames_add_up};
pub use files::{
    later_mapping_reads_what_was_written, loaded_page_is_never_written_back,
    one_service_sets_every_mark,
};
pub use headline::headline_holds;
pub use places::{no_room_means_none, place_is_the_greatest, unmapping_leaves_one_run};
pub use refusals::wrong_models_are_refused;
pub use regions::{first_rule_is_first, regions_never_meet, regions_stay_in_order};
pub use service::{made_resident_is_resident, page_takes_few_frames, returned_page_is_initial};
pub use worlds::{copy_numbers_are_new, schemes_stay};
