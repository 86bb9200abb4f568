// `access_name`: an access by the word with which a line begins.

use sv39_entry::Access;

/// Returns the name of an access, as a line begins.
pub fn access_name(access: Access) -> &'static str {
    match access {
        Access::Fetch => "fetch",
        Access::Load => "load",
        Access::Store => "store",
    }
}
