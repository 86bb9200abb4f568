// `copy_page`, a function over any `Files`: copies one page from a file to another file, after a promise (a reservation of
// page I/O) of two pages.

ghost use Rattle.std.specs.Prelude.{◌≡◌, ◌∷◌, [], IfErr, IfOk};
ghost use Rattle.file_cabinet.specs.Promises.{refusal_of};
ghost use Rattle.file_cabinet.specs.declared.promise.PromiseError.{PromiseError};
ghost use Rattle.process_model.specs.Files.{file_page, with_page_written};
ghost use Rattle.process_model.specs.PageMoves.{page_read, page_write};

use file_cabinet::Files;
use process_model::Refusal;

/// Copies the 4,096 bytes at `offset` of file `from` to the same offset of file `to`: one page read and one page write,
/// after a promise of two pages. Files are given by number, `offset` in bytes. Bytes past the end of `from` count as zeros,
/// as do all of a file that does not exist; `to` keeps its length, and nothing is written if it does not exist.
///
/// # Errors
/// `Memory`, `JournalFull`: `files` refused the promise. The files are then unchanged.
pub fn copy_page<F: Files>(
    files: &mut F,
    from: usize,
    to: usize,
    offset: usize,
) -> Result<(), Refusal>
    ensures copied { IfOk result (λ _. F.files files.new ≡ with_page_written (F.files files.old) to offset (file_page (F.files files.old) from offset)) }
    ensures moves { IfOk result (λ _. F.becomes files.old
        (page_read from offset (file_page (F.files files.old) from offset) ∷ page_write to offset (file_page (F.files files.old) from offset) ∷ []) files.new) }
    ensures refused { IfErr result (λ r. ((e : PromiseError) × F.can_refuse files.old 2 e × (r ≡ refusal_of e))) }
    ensures same { IfErr result (λ _. F.becomes files.old [] files.new) }
{
    files.promise(2)?;
    let mut page = [0; 4096];
    files.read_page(from, offset, &mut page);
    files.write_page(to, offset, &page);
    Ok(())
}
