//! The staging of a kit's pieces, one after another.

ghost use Rattle.std.specs.Prelude.{◌≡◌, ◌≢◌, ◌<◌, ◌||◌, pos, IfErr, OnOk, false, true};
ghost use Rattle.mm_definitions.specs.Bounds.{current};
ghost use Rattle.mm_definitions.specs.Faults.{reopen, input};
ghost use Rattle.mm_definitions.specs.Package.{Package};
ghost use Rattle.mm_definitions.specs.Rules.{Meets};
ghost use Rattle.mm_definitions.specs.Step.{step};
ghost use Rattle.mm_definitions.specs.declared.answers.Answer.TheVariants as answers;
ghost use Rattle.mm_definitions.specs.declared.commands.Command.TheVariants as commands;
ghost use Rattle.mm_run.specs.Answers.{is_fault};
ghost use Rattle.mm_run.specs.Applied.{IsApplied, IsApplyFault, IsSound, OnFault};
ghost use Rattle.mm_run.specs.Sessions.{shown_since};
ghost use Rattle.mm_kit.specs.Folders.{fault_number};
ghost use Rattle.mm_kit.specs.Imports.{IsEntryStaged, IsKitFault, is_of_folder};
ghost use Rattle.mm_kit.specs.Lists.{AreFew};
ghost use Rattle.mm_kit.specs.Promised.{StagesEntries};

use crate::entries::KitEntry;
use crate::filling::{Unfilled, fill};
use crate::folders::{Folder, FolderFault};
use mm_definitions::answers::{Answer, Fault, KitFault, Staged};
use mm_definitions::bounded::Id;
use mm_definitions::commands::{Command, Piece};
use mm_definitions::moments::Moment;
use mm_definitions::names::Name;
use mm_definitions::refusals::Reason;
use mm_run::{Apply, Editor};
use std::alloc::Global;

/// A folder's fault as one of the import.
pub(crate) fn folder_fault(fault: FolderFault) -> Fault
    ensures { result.0 ≡ fault_number fault }
{
    match fault {
        FolderFault::Memory => Fault::MEMORY,
        FolderFault::Failed => Fault::INPUT,
    }
}

/// The number of a piece.
fn id_of(number: u32) -> Id
    requires { 0 < number }
    ensures { result ≡ pos number }
{
    match Id::new(i64::from(number)) {
        Some(id) => id,
        None => unreachable!(),
    }
}

/// The command that stages one piece.
fn stage_piece<A: Apply>(
    editor: &mut A,
    edition: &Name,
    number: u32,
    piece: Piece,
    at: Moment,
) -> Answer
    requires { 0 < number }
    ensures keeps { (p : Package) → Meets current p
        → Meets current (step p (commands.Stage edition.now (pos number) piece) at) }
    ensures faults { OnFault result IsApplyFault }
    ensures ended { A.has_failed editor.old ≡ true → (result ≡ answers.Fault reopen)
        × (editor.new ≡ editor.old) }
    ensures working { A.has_failed editor.old ≡ false → OnFault result (λ fault. fault ≢ reopen.0) }
    ensures fails { A.has_failed editor.old ≡ false → A.has_failed editor.new ≡ is_fault result }
    ensures clean { A.is_clean editor.new → A.is_clean editor.old }
    ensures applied { A.is_clean editor.new → (p : Package) → A.seen editor.old p → Meets current p
        → IsApplied p (commands.Stage edition.now (pos number) piece) at result
        (shown_since A.Apply editor.old p editor.new) }
{
    // The proof reads from these that the moment and the command are within their limits.
    let _milliseconds = at.milliseconds();
    let Ok(edition) = edition.clone() else {
        unreachable!()
    };
    let command = Command::Stage {
        edition,
        number: id_of(number),
        piece,
    };
    command.is_within();
    editor.apply(&command, at)
}

/// Reads the file of an entry and stages its piece under this number: None where it is staged or stands already, else
/// what refuses it. A fault of the folder comes before the command.
fn stage_entry<A: Editor, F: Folder>(
    alloc: Global,
    editor: &mut A,
    edition: &Name,
    folder: &mut F,
    number: u32,
    entry: KitEntry,
    at: Moment,
) -> Result<Option<Reason>, Fault>
    requires number { 0 < number }
    requires working { A.has_failed editor.old ≡ false }
    ensures clean { A.is_clean editor.new → A.is_clean editor.old }
    ensures staged { A.is_clean editor.new → (p : Package) → IsSound (A.seen editor.old) p
        → IsEntryStaged (F.files folder.old) entry edition.now number p at
        (shown_since A.Apply editor.old p editor.new) result }
    ensures works { OnOk result (A.has_failed editor.new ≡ false) }
    ensures fault { IfErr result
        (λ fault. (fault.0 ≢ reopen.0) × (fault.0 ≡ input.0 → A.has_failed editor.new ≡ false)) }
    ensures stays { F.files folder.new ≡ F.files folder.old }
    ensures folder { F.has_failed folder.new ≡ (F.has_failed folder.old || is_of_folder result) }
    ensures why { IfErr result (λ fault. IsKitFault fault.0) }
{
    match fill(alloc, folder, entry) {
        Ok(piece) => match stage_piece(editor, edition, number, piece, at) {
            Answer::Ok => Ok(None),
            Answer::Refused(why) => Ok(Some(why.reason())),
            Answer::Fault(fault) => Err(fault),
        },
        Err(unfilled) => match unfilled {
            Unfilled::Refused(number) => Ok(Some(number)),
            Unfilled::Folder(fault) => Err(folder_fault(fault)),
        },
    }
}

/// Stages the pieces of the entries in order, up to the first that is refused.
pub(crate) fn stage_all<A: Editor, F: Folder>(
    alloc: Global,
    editor: &mut A,
    edition: &Name,
    folder: &mut F,
    entries: Vec<KitEntry>,
    at: Moment,
) -> Result<Staged, KitFault>
    requires few { AreFew entries.items }
    requires working { A.has_failed editor.old ≡ false }
    ensures { StagesEntries A.Apply F.Folder edition.now entries.items editor.old editor.new
        folder.old folder.new result }
{
    let mut staged = 0u32;
    for entry in entries {
        match stage_entry(alloc, editor, edition, folder, staged + 1, entry, at) {
            Ok(None) => staged += 1,
            Ok(Some(number)) => {
                return Ok(Staged::Refused {
                    piece: staged + 1,
                    number,
                });
            }
            Err(fault) => return Err(KitFault { fault, staged }),
        }
    }
    Ok(Staged::Complete(staged))
}
