// One law, `wrong_models_are_refused`: the parts of the headline exclude 39 wrong behaviors of a kernel, such as a
// second fault, a copy that stops although frames suffice, a byte lost at a trap, a released page that keeps bytes, a
// misplaced grant or mark, or the start of a bad image.
ghost use Rattle.std.specs.Prelude.{◌≡◌, ◌≢◌, ◌≤◌, ◌<◌, ◌+◌, ◌-◌, ◌*◌, ℕ, ℤ, Err, false, length, List, None, Ok, slice_get, Some, true};
ghost use Rattle.process_laws.specs.Headline.{AnswersUser, Becomes, ChangesOwn, CopiesForKernel, CountsFrames, HoldsFrames, LeavesOthers, ReadsLatest};
ghost use Rattle.process_laws.specs.CallReplies.{is_below_base, is_range};
ghost use Rattle.process_laws.specs.FilePlaces.{file_bytes};
ghost use Rattle.process_laws.specs.Latest.{byte_at, byte_had, page_byte, is_released, latest};
ghost use Rattle.process_laws.specs.MadeSteps.{MakesOwn, MakesSteps};
ghost use Rattle.process_laws.specs.Moments.{Moment, slot_on};
ghost use Rattle.process_laws.specs.FrameNeeds.{copy_on, frames_for_image, frames_for_page, has_tables, is_settled};
ghost use Rattle.process_laws.specs.Pages.{are_joined, grant, has_cow_mark, has_dirty_mark, is_between, is_store_at, mapping_grant};
ghost use Rattle.process_laws.specs.Words.{UserAccess, cause, copied, in_memory, IsGranted, IsOnHart, IsResident, MayCall, Serves, Tries};
ghost use Rattle.process_laws.specs.Words.{writes_back, WroteBack, changed_at, is_on_hart, IsMade, stale_on};
ghost use Rattle.process_model.specs.Bytes.{pages_for};
ghost use Rattle.process_model.specs.Harts.{Hart, is_kernel};
ghost use Rattle.process_model.specs.Images.{image_loads, LoadSegment};
ghost use Rattle.process_model.specs.declared.limits.TheConstants.{LONGEST_COPY, MOST_MAPPINGS};
ghost use Rattle.process_model.specs.Mappings.{Fits};
ghost use Rattle.process_model.specs.PageMap.{get};
ghost use Rattle.process_model.specs.Process.{Process, regions};
ghost use Rattle.process_model.specs.Regions.{Region};
ghost use Rattle.process_model.specs.World.{free, free_slot, has_slot, others_have, process_in, without_process};
ghost use Rattle.process_model.specs.declared.config.Policy.TheVariants.{Asid};
ghost use Rattle.process_model.specs.declared.image.BadImage.{BadImage};
ghost use Rattle.process_model.specs.declared.image.Image.{Image};
ghost use Rattle.process_model.specs.declared.phase.Phase.TheVariants.{Leave2};
ghost use Rattle.process_model.specs.declared.reply.Refusal.TheVariants as refusal;
ghost use Rattle.process_model.specs.declared.reply.ScalarReply.TheVariants.{Done, Ended, Fault, Forked, MappedAt, OldSize, Refused, Started};
ghost use Rattle.process_model.specs.declared.reply.Reply.TheVariants.{CopiedIn, ShortIn, Scalar};
ghost use Rattle.process_model.specs.declared.step.Step.TheVariants.{CopyIn, CopyOut, Exec, Fork, Mmap, Munmap, Next, Sbrk, Serve, Start, Trap};
ghost use Rattle.sv39_entry.specs.Address.{page_of};
ghost use Rattle.sv39_entry.specs.declared.access.Access.TheVariants.{Load};
ghost use Rattle.sv39_entry.specs.declared.rule.Rule.TheVariants.{NoFrame};

/// For any moment of any model: if the part of the headline that a clause names holds of the moment, this does not happen:
///
/// `second_fault`: a granted access of a resident page faults. `other_cause`: an access that is not granted, or whose page is
/// not resident, faults with another cause than its own. `short_copy`: copyin stops by NoFrame although the frames that the
/// next byte alone needs are free. `trap`: a trap drops or changes a byte. `released`: a page that sbrk releases has bytes
/// afterwards. `place`: munmap changes the grant of a page outside its range, such as its place in the file. `mapped`: a page
/// of a new mapping has another grant than mmap was asked for. `over`: a new mapping lies over a page that had a grant.
/// `cow`: service sets a copy-on-write mark. `dirty`: service sets the dirty mark on a page to which the pending access is no
/// store. `child`: a child has other regions than its parent had. `kind`: copyout replies as copyin does. `bad_image`: a bad
/// image starts. `nobody`: munmap is done on a hart without a process. `start_frames`, `service_frames`: a start or a service
/// says NoFrame although the frames that it needs are free. `bad_exec`: an exec of a bad image says NoFrame. `exec_frees`:
/// after an exec some frames of the old process are not free. `heap_base`: exec keeps the old heap's base. `settled_frame`:
/// service settles a page on a frame that a process has. `unasked_frame`: copyin gives another frame to a page that it only
/// reads. `shared_frame`: service takes a page over that stays on the frame of another process. `tables`: munmap takes or
/// gives page tables. `no_range`: munmap is done for an address inside a page or a length of 0. `below_base`: sbrk is done
/// below the heap's base. `high`: mmap maps below a page at which the pages fit, or once more than `MOST_MAPPINGS` times.
/// `written`: a byte that had to be written back is not. `one_frame`: two processes have pages with different bytes on one frame. `order`: a copy of
/// more than `LONGEST_COPY` bytes gets another refusal than BadArgument. `phase`: a call outside the kernel gets another one
/// than Impossible with the hart's phase. `copy_mark`: a page to which copyout puts a byte keeps the copy-on-write mark.
/// `count`: a file is added or dropped. `last`: where two pages map one place of a file, the byte of the lower one is there
/// after write-back. `cut`: the pages of a new mapping are in several. `no_page`: a process has a mapping of no page.
/// `none_free`: copyin takes frames although none is free. `stale`: a slot changes, and a hart is not marked for it.
/// `unasked_mark`: a hart that makes no step is marked for a slot that does not change. `mark_stays`: the last fence of the
/// return leaves the mark.
pub fn wrong_models_are_refused()
    ensures second_fault { (m : Moment) (h s cause : ℕ) (p : Process) (a : UserAccess) → AnswersUser m h s p a → Tries m h s p a
        → IsGranted p a → IsResident p a → m.reply ≢ Scalar (Fault cause) }
    ensures other_cause { (m : Moment) (h s c : ℕ) (p : Process) (a : UserAccess) → AnswersUser m h s p a → Tries m h s p a
        → (IsGranted p a → IsResident p a → ⊥) → m.reply ≡ Scalar (Fault c) → c ≡ cause a }
    ensures short_copy { (m : Moment) (h s address n : ℕ) (p q : Process) (bytes : _) → CopiesForKernel m h s address (copied m.reply) p
        → m.step ≡ CopyIn h address n → m.reply ≡ ShortIn NoFrame bytes
        → process_in m.after s ≡ Some q → frames_for_page m.after s q Load (page_of (address + length bytes.items)) ≤ free m.after → ⊥ }
    ensures trap { (past : _) (m : Moment) → ReadsLatest past m → (h s a b : ℕ) → m.step ≡ Trap h → latest past s a ≡ Some b
        → byte_had (process_in m.after s) a ≡ Some b }
    ensures released { (past : _) (m : Moment) → ReadsLatest past m → (h s a n : ℕ) (delta : ℤ) → m.step ≡ Sbrk h delta
        → m.reply ≡ Scalar (OldSize n) → has_slot s (slot_on m.before h) ≡ true
        → is_released n delta a ≡ true → byte_had (process_in m.after s) a ≡ None }
    ensures place { (m : Moment) (h address len page : ℕ) (p q : Process) → Becomes m h p q → m.step ≡ Munmap h address len → m.reply ≡ Scalar Done
        → is_between (page_of address) (page_of address + pages_for len) page ≡ false → grant q page ≡ grant p page }
    ensures mapped { (m : Moment) (h len protection flags n at page : ℕ) (p q : Process) → Becomes m h p q
        → m.step ≡ Mmap h len protection flags n → m.reply ≡ Scalar (MappedAt at)
        → is_between (page_of at) (page_of at + pages_for len) page ≡ true → grant q page ≡ Some (mapping_grant protection flags n (page - page_of at)) }
    ensures over { (m : Moment) (h len protection flags n at page : ℕ) (p q : Process) → Becomes m h p q
        → m.step ≡ Mmap h len protection flags n → m.reply ≡ Scalar (MappedAt at)
        → is_between (page_of at) (page_of at + pages_for len) page ≡ true → grant p page ≡ None }
    ensures cow { (m : Moment) (h page : ℕ) (p q : Process) → Becomes m h p q → m.step ≡ Serve h → has_cow_mark p page ≡ false → has_cow_mark q page ≡ false }
    ensures dirty { (m : Moment) (h page : ℕ) (p q : Process) → Becomes m h p q → m.step ≡ Serve h → is_store_at p.pending page ≡ false
        → has_dirty_mark p page ≡ false
        → has_dirty_mark q page ≡ false }
    ensures child { (m : Moment) (h s t : ℕ) (p c : Process) → ChangesOwn m h s p → m.step ≡ Fork h → m.reply ≡ Scalar (Forked t)
        → process_in m.after t ≡ Some c → regions c ≡ regions p }
    ensures kind { (m : Moment) (h address : ℕ) (bytes : _) (bytes_in : _) → MakesSteps m → m.step ≡ CopyOut h address bytes → m.reply ≢ CopiedIn bytes_in }
    ensures bad_image { (m : Moment) (image : Image) (e : BadImage) (s : ℕ) → MakesSteps m → m.step ≡ Start image
        → image_loads (m.before).scheme image ≡ Err e → m.reply ≢ Scalar (Started s) }
    ensures nobody { (m : Moment) (h address len : ℕ) → MakesSteps m → m.step ≡ Munmap h address len → slot_on m.before h ≡ None → m.reply ≢ Scalar Done }
    ensures start_frames { (m : Moment) (image : Image) (s : ℕ) (ls : List LoadSegment) → CountsFrames m → free_slot m.before ≡ Some s
        → image_loads (m.before).scheme image ≡ Ok ls → m.step ≡ Start image
        → 1 + frames_for_image (m.before).scheme ls ≤ free m.before → m.reply ≢ Scalar (Refused refusal.NoFrame) }
    ensures service_frames { (m : Moment) (h s : ℕ) (p : Process) (a : UserAccess) → CountsFrames m → Serves m h s p a → IsGranted p a
        → frames_for_page m.before s p a.access (page_of a.address) ≤ free m.before
        → m.reply ≢ Scalar (Ended NoFrame) }
    ensures bad_exec { (m : Moment) (h : ℕ) (image : Image) (b : BadImage) → CountsFrames m → m.step ≡ Exec h image
        → image_loads (m.before).scheme image ≡ Err b → m.reply ≢ Scalar (Refused refusal.NoFrame) }
    ensures exec_frees { (m : Moment) (h s : ℕ) (p : Process) (image : Image) (ls : List LoadSegment) → CountsFrames m
        → IsOnHart m.before h s p → MayCall m.before h p → image_loads (m.before).scheme image ≡ Ok ls
        → m.step ≡ Exec h image → m.reply ≡ Scalar Done → free m.after + (1 + frames_for_image (m.before).scheme ls) ≡ free (without_process m.before s) }
    ensures heap_base { (m : Moment) (h : ℕ) (image : Image) (p q : Process) → Becomes m h p q
        → m.step ≡ Exec h image → m.reply ≡ Scalar Done → q.heap_base ≡ q.size }
    ensures settled_frame { (m : Moment) (h s t page other copy : ℕ) (p q r : Process) → HoldsFrames m → IsOnHart m.before h s p
        → m.step ≡ Serve h → process_in m.after s ≡ Some q → is_settled p page ≡ false
        → copy_on q page ≡ Some copy → process_in m.before t ≡ Some r → copy_on r other ≢ Some copy }
    ensures unasked_frame { (m : Moment) (h s address n page old copy : ℕ) (p q : Process) → HoldsFrames m → IsOnHart m.before h s p
        → m.step ≡ CopyIn h address n → process_in m.after s ≡ Some q
        → has_cow_mark q page ≡ has_cow_mark p page → copy_on p page ≡ Some old → copy_on q page ≡ Some copy → copy ≡ old }
    ensures shared_frame { (m : Moment) (h s page copy : ℕ) (p q : Process) → HoldsFrames m → IsOnHart m.before h s p → m.step ≡ Serve h
        → process_in m.after s ≡ Some q → has_cow_mark p page ≡ true
        → has_cow_mark q page ≡ false → copy_on p page ≡ Some copy → others_have m.before s copy ≡ true → copy_on q page ≢ Some copy }
    ensures tables { (m : Moment) (h s address len page : ℕ) (p q : Process) → HoldsFrames m → IsOnHart m.before h s p
        → m.step ≡ Munmap h address len → process_in m.after s ≡ Some q → is_settled q page ≡ false
        → has_tables q page ≡ has_tables p page }
    ensures no_range { (m : Moment) (h s address len : ℕ) (p : Process) → MakesOwn m h s p → MayCall m.before h p
        → m.step ≡ Munmap h address len → is_range address len ≡ false → m.reply ≢ Scalar Done }
    ensures below_base { (m : Moment) (h s n : ℕ) (delta : ℤ) (p : Process) → MakesOwn m h s p → MayCall m.before h p
        → m.step ≡ Sbrk h delta → is_below_base p delta ≡ true → m.reply ≢ Scalar (OldSize n) }
    ensures high { (m : Moment) (h s len protection flags n at : ℕ) (p : Process) → MakesOwn m h s p → MayCall m.before h p
        → m.step ≡ Mmap h len protection flags n → m.reply ≡ Scalar (MappedAt at)
        → (length p.mappings < MOST_MAPPINGS) × ((other : ℕ) → Fits p (pages_for len) other → 4096 * other ≤ at) }
    ensures written { (m : Moment) (h s n i b : ℕ) (p : Process) → ChangesOwn m h s p → writes_back m.step m.reply ≡ true
        → i < length (file_bytes (m.before).files n) → WroteBack m.step p n i b
        → WroteBack m.step p n i (byte_at (file_bytes (m.after).files n) i) }
    ensures one_frame { (m : Moment) (s t one two copy i : ℕ) (p q : Process) → HoldsFrames m → s ≢ t → process_in m.after s ≡ Some p
        → process_in m.after t ≡ Some q → copy_on p one ≡ Some copy → copy_on q two ≡ Some copy
        → page_byte (get p.settled one) i ≡ page_byte (get q.settled two) i }
    ensures order { (m : Moment) (h address n : ℕ) → MakesSteps m → m.step ≡ CopyIn h address n
        → LONGEST_COPY < n → m.reply ≡ Scalar (Refused refusal.BadArgument) }
    ensures phase { (m : Moment) (h : ℕ) (delta : ℤ) (hart : Hart) → MakesSteps m → slice_get (m.before).harts h ≡ Some hart
        → m.step ≡ Sbrk h delta → is_kernel hart.phase ≡ false
        → m.reply ≡ Scalar (Refused (refusal.Impossible hart.phase)) }
    ensures copy_mark { (m : Moment) (h s address i : ℕ) (bytes : _) (p q : Process) → CopiesForKernel m h s address (copied m.reply) p
        → m.step ≡ CopyOut h address bytes → i < copied m.reply → process_in m.after s ≡ Some q
        → has_cow_mark q (page_of (address + i)) ≡ false }
    ensures none_free { (m : Moment) (h address n frames : ℕ) (bytes : _) → CountsFrames m → m.step ≡ CopyIn h address n
        → m.reply ≡ CopiedIn bytes → free m.before ≡ 0
        → free (in_memory m.before frames) ≤ free (in_memory m.after frames) }
    ensures no_page { (m : Moment) (s n : ℕ) (q : Process) (r : Region) → LeavesOthers m → process_in m.after s ≡ Some q
        → slice_get q.mappings n ≡ Some r → 1 ≤ r.pages }
    ensures cut { (m : Moment) (h len protection flags n at page : ℕ) (p q : Process) → Becomes m h p q
        → m.step ≡ Mmap h len protection flags n → m.reply ≡ Scalar (MappedAt at)
        → is_between (page_of at) (page_of at + pages_for len) page ≡ true
        → is_between (page_of at) (page_of at + pages_for len) (page + 1) ≡ true → are_joined q page ≡ true }
    ensures last { (m : Moment) (h s n i b : ℕ) (p : Process) → ChangesOwn m h s p → writes_back m.step m.reply ≡ true
        → i < length (file_bytes (m.before).files n)
        → (v : WroteBack m.step p n i b) → ((c : ℕ) (w : WroteBack m.step p n i c) → w.address ≤ v.address) → byte_at (file_bytes (m.after).files n) i ≡ b }
    ensures stale { (m : Moment) (k t : ℕ) (hart : Hart) → LeavesOthers m → IsMade m.reply → slice_get (m.before).harts k ≡ Some hart → (m.before).policy ≡ Asid
        → changed_at (slice_get (m.before).slots t) (slice_get (m.after).slots t) ≡ true → stale_on m.after k t ≡ Some true }
    ensures unasked_mark { (m : Moment) (k t : ℕ) (hart : Hart) → LeavesOthers m → IsMade m.reply → slice_get (m.before).harts k ≡ Some hart
        → is_on_hart m.step k ≡ false
        → changed_at (slice_get (m.before).slots t) (slice_get (m.after).slots t) ≡ false → stale_on m.after k t ≡ Some (hart.stale t) }
    ensures mark_stays { (m : Moment) (k t : ℕ) (hart : Hart) → LeavesOthers m → IsMade m.reply → slice_get (m.before).harts k ≡ Some hart
        → m.step ≡ Next k → hart.phase ≡ Leave2 → hart.slot ≡ Some t
        → (m.before).policy ≡ Asid → changed_at (slice_get (m.before).slots t) (slice_get (m.after).slots t) ≡ false → stale_on m.after k t ≡ Some false }
    ensures count { (m : Moment) (h s : ℕ) (p : Process) → ChangesOwn m h s p → length (m.after).files ≡ length (m.before).files }
{}
