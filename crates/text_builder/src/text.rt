// `Text`: a struct, a text that notes that the host was out of memory for a part of it.

ghost use Rattle.std.specs.Prelude.{◌≡◌, IfOk, [], true};
ghost use Rattle.std.specs.String.{string_bytes};
ghost use Rattle.std.specs.Fmt.{AppendsText};
ghost use Rattle.text_builder.specs.Texts.{Appends, IsWhole, text_bytes};

use std::alloc::{AllocError, Global};
use std::fmt::Display;

/// A text that is put together part by part.
#[derive(Drop)]
pub struct Text {
    text: String,
    /// Whether the host had memory for each part so far.
    is_whole: bool,
}

impl Text {
    /// Returns an empty text.
    pub fn new(alloc: Global) -> Text
        ensures { text_bytes result ≡ [] }
    {
        Text {
            text: String::new(alloc),
            is_whole: true,
        }
    }

    /// Returns from where the text's memory is.
    pub fn allocator(&self) -> Global {
        *self.text.allocator()
    }

    /// Whether the text has no byte.
    pub fn is_empty(&self) -> bool
        ensures { result ≡ true → text_bytes self.now ≡ [] }
    {
        self.text.is_empty()
    }

    /// Returns what there is of the text: all of it only if `finish` says so.
    pub fn as_str(&self) -> &str
        ensures { result.now ≡ text_bytes self.now }
    {
        self.text.as_str()
    }

    /// Notes that a part is lacking, if the host was out of memory for it.
    pub fn note(&mut self, made: Result<(), AllocError>)
        ensures { Appends self.old self.new [] }
    {
        match made {
            Ok(()) => {}
            Err(_) => self.is_whole = false,
        }
    }

    /// Makes room for so many bytes more, if the host has memory for them.
    pub fn reserve(&mut self, bytes: usize)
        ensures { Appends self.old self.new [] }
    {
        let _ = self.text.reserve(bytes);
    }

    /// Appends a text.
    pub fn push_str(&mut self, text: &str)
        ensures { Appends self.old self.new text.now }
    {
        match self.text.push_str(text) {
            Ok(()) => {}
            Err(_) => self.is_whole = false,
        }
    }

    /// Appends what `write!` and `writeln!` give.
    pub fn write_fmt<D: Display + Drop>(&mut self, value: D)
        ensures { IsWhole self.new → IsWhole self.old × AppendsText (text_bytes self.old) (text_bytes self.new) (D.output value) }
    {
        match self.text.write_fmt(value) {
            Ok(()) => {}
            Err(_) => self.is_whole = false,
        }
    }

    /// Removes all of the text. That a part was lacking stays noted.
    pub fn clear(&mut self)
        ensures { IsWhole self.new → IsWhole self.old × (text_bytes self.new ≡ []) }
    {
        self.text.clear();
    }

    /// Returns the text.
    ///
    /// # Errors
    /// `AllocError`: the host was out of memory for a part of it.
    pub fn finish(self) -> Result<String, AllocError>
        ensures { IfOk result (λ text. IsWhole self × string_bytes text ≡ text_bytes self) }
    {
        if self.is_whole {
            Ok(self.text)
        } else {
            Err(AllocError)
        }
    }
}
