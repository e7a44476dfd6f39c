//! Laws of orders, one after the other. Each function does nothing; its contract is the law.

ghost use Rattle.commands.specs.Runs.{NewFilesAgree, RunsFollow, RunsLead};

use crate::connections::Connections;
use crate::files::Files;
use sqlite_disk::Disk;

/// What a `create` made agrees with no messages, and with the operator's key of its settings.
pub fn new_files_agree<D: Disk>()
    ensures { NewFilesAgree D.Disk }
{}

/// An order leads from the files as it found them to the files as its end, or a stop in it, leaves them. Whatever the
/// files agreed with, they then agree with that and with the messages that came, or with these and one message in doubt.
/// A `create` changes nothing that is there. An upgrade, or a part of one, changes nothing that the tables hold.
pub fn runs_lead<F: Files, C: Connections, D: Disk>()
    ensures { RunsLead D.Disk F.Files C.Connections C.Reader.Source C.Writer.Sink }
{}

/// Orders one after the other, each of which ended well, failed or was stopped, lead on.
pub fn runs_follow()
    ensures { RunsFollow }
{}
