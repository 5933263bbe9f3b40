//! Laws of runs, and of how requests are answered. Each function does nothing: its contract is the law.

ghost use Rattle.std.specs.Prelude.{◌≡◌};
ghost use Rattle.tile_course.specs.AnswerLaws.{RequestsPrintLines, NoRequestIsOutOfMemory, LooksLeaveHistory};
ghost use Rattle.tile_course.specs.declared.limits.TheConstants.{MAX_RETRIES, MAX_SCRIPT};

/// A script has at most 16,777,216 bytes (`script`), and in a run at most 1,000 interrupted calls
/// are made again (`retries`).
pub fn limits()
    ensures script { MAX_SCRIPT ≡ 16777216 }
    ensures retries { MAX_RETRIES ≡ 1000 }
{}

/// What a request prints before `ok` is whole lines, and none of them is `ok` or begins as a refusal
/// does.
pub fn requests_print_lines()
    ensures { RequestsPrintLines }
{}

/// With all memory no request is refused with 60, or stopped with 54.
pub fn no_request_is_out_of_memory()
    ensures { NoRequestIsOutOfMemory }
{}

/// The size, a listing, the marks and the history, where they are printed, leave the history as it
/// was, and so the tile and what undo takes back.
pub fn looks_leave_history()
    ensures { LooksLeaveHistory }
{}
