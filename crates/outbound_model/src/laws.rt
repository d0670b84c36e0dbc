//! Laws of the steps of a take-in.
ghost use Rattle.std.specs.Prelude.{◌≡◌, ◌++◌, List};
ghost use Rattle.outbound_model.specs.Lives.{Along, IsFresh, IsOnce, Reaches};
ghost use Rattle.outbound_model.specs.Outbound.{Outbound};
ghost use Rattle.outbound_model.specs.Steps.{Step};
ghost use Rattle.outbound_model.specs.WorkedTake.{EndsWorked, worked_beginning, worked_take};

/// Whatever steps were made, over whatever stops: each file that was moved waits as a take, or each of its lines was queued once,
/// and the queue has what the lines were given and nothing else.
pub fn each_line_once()
    ensures { (a : Outbound) (es : List Step) (b : Outbound) → IsFresh a → Reaches a es b → IsOnce es b }
{}

/// Steps behind steps are steps.
pub fn lives_join()
    ensures { (a : Outbound) (es : List Step) (b : Outbound) (fs : List Step) (c : Outbound) → Reaches a es b → Reaches b fs c → Reaches a (fs ++ es) c }
{}

/// What a stop within steps may leave is reached by steps.
pub fn stop_leaves_a_life()
    ensures { (a : Outbound) (es : List Step) (d : Outbound) → Along a es d → (fs : List Step) × Reaches a fs d }
{}

/// A flow file of four lines is taken in: two of its files are queued, one line is passed over, and one names no file. The source
/// of the first is deleted, and that of the second is cut.
pub fn worked_take_happens()
    ensures { (last : Outbound) × Reaches worked_beginning worked_take last × EndsWorked last }
{}
