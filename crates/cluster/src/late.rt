//! Worked runs in which packets come late.

ghost use Rattle.cluster.specs.WorkedLate.{HeardComesBack, LateNumberIsDropped, LateResumeIsDropped, OldAnswerIsDropped, OldAskIsHeard, OpenJobComesFirst};

/// An RSN that arrives after its node's Ask isn't recorded.
pub fn late_number_is_dropped()
    ensures { LateNumberIsDropped }
{}

/// An Ask and a Resume that arrive a second time change nothing.
pub fn late_resume_is_dropped()
    ensures { LateResumeIsDropped }
{}

/// Answers to an earlier incarnation aren't collected.
pub fn old_answer_is_dropped()
    ensures { OldAnswerIsDropped }
{}

/// A node that works on a message of a recovering node finishes it before it answers. It takes no
/// message that was sent before the crash.
pub fn open_job_comes_first()
    ensures { OpenJobComesFirst }
{}

/// A node that comes back learns again which incarnations of its peers it had heard.
pub fn heard_comes_back()
    ensures { HeardComesBack }
{}

/// A node that collects hears an Ask that it had heard before it died. The sender of the Ask is up,
/// and tells it its log.
pub fn old_ask_is_heard()
    ensures { OldAskIsHeard }
{}
