//! What the words of the program `xv6lab` stand on. A `Host` has the files that they read, and a `Screen` is where their text goes; a
//! `Printout` holds text until then, and a `Fault` says why the program ends early. `each_line` reads a script line by line, plays it as
//! `xv6vm` does, and gives each line to a `Listener`.
#![tactic(auto)]

mod chosen_line;
mod fault;
mod host;
mod lines;
mod mistakes;
mod play;
mod printout;
mod screen;

pub use chosen_line::ChosenLine;
pub use fault::Fault;
pub use host::{Host, Hosting, Reading, bytes_of, write_file};
pub use lines::{is_among, read_line, without_feed};
pub use mistakes::{Place, tell_end, tell_refused};
pub use play::{Listener, each_line, played};
pub use printout::Printout;
pub use screen::{Failures, Screen, print, print_error, put_lossy, put_object};
