// `ObjectWriter`: a struct, an object that is being written.

use serde::{Serialize, Serializer};

/// An object that is being written. The members are written by calls, and not derived from fields, since the proof of a derived `Serialize`
/// grows faster than its fields.
#[derive(Drop)]
pub struct ObjectWriter<'a, S: Serializer> {
    out: &'a mut S,
    /// The first error; what comes after it is not written.
    failed: Option<S::Error>,
}

/// Writes a member.
fn put_member<S: Serializer, T: Serialize>(
    out: &mut S,
    name: &str,
    value: &T,
) -> Result<(), S::Error> {
    out.key(name)?;
    value.serialize(out)
}

impl<'a, S: Serializer> ObjectWriter<'a, S> {
    /// Begins an object.
    pub fn begin(out: &'a mut S) -> ObjectWriter<'a, S> {
        let failed = out.begin_map(None).err();
        ObjectWriter { out, failed }
    }

    /// Writes a member.
    pub fn member<T: Serialize>(&mut self, name: &str, value: &T) {
        if self.failed.is_none() {
            self.failed = put_member(self.out, name, value).err();
        }
    }

    /// Writes a member that is left out if there is no value.
    pub fn maybe<T: Serialize>(&mut self, name: &str, value: &Option<T>) {
        if let Some(value) = value {
            self.member(name, value);
        }
    }

    /// Ends the object.
    ///
    /// # Errors
    /// The first one that was met.
    pub fn finish(self) -> Result<(), S::Error> {
        let ObjectWriter { out, failed } = self;
        match failed {
            Some(error) => Err(error),
            None => out.end_map(),
        }
    }
}
