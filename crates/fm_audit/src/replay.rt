//! The steps of a record, taken one by one on a hall.

ghost use Rattle.std.specs.Prelude.{◌≡◌, ◌≤◌, length, IfErr, OnOk};
ghost use Rattle.fm_progress.specs.Progress.{Finished};
ghost use Rattle.fm_audit.specs.Verdict.{Faulty, IsRun};

use crate::AuditFault;
use fm_hall::{Hall, Taken};
use fm_record::{MAX_RECORD, read_step};

/// Takes the steps whose bytes these are, up to the first fault.
pub(crate) fn replay(hall: &mut Hall, bytes: &[u8]) -> Result<(), AuditFault>
    requires { length bytes.now ≤ MAX_RECORD }
    ensures ok { OnOk result (IsRun hall.old.setting hall.old.state bytes.now) }
    ensures err { IfErr result (Faulty hall.old.setting hall.old.state bytes.now) }
    ensures same { hall.new.setting ≡ hall.old.setting }
    ensures finished { OnOk result (Finished hall.new.setting hall.new.state) }
{
    let mut position = 0;
    let mut count = 0;
    while position < bytes.len() {
        match read_step(&bytes[position..]) {
            None => {
                return Err(AuditFault::BadStep {
                    position: position as u32,
                });
            }
            Some((step, size)) => {
                match hall.step(&step) {
                    Taken::Refused(reason) => {
                        return Err(AuditFault::Refused {
                            step: count,
                            reason,
                        });
                    }
                    Taken::Taken => {
                        position += size;
                        count += 1;
                    }
                }
            }
        }
    }
    if hall.next_step().is_some() {
        return Err(AuditFault::Unfinished { steps: count });
    }
    Ok(())
}
