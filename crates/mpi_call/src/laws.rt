//! What holds from call to call.

ghost use Rattle.mpi_call.specs.InOrder.{ReceivesMayFinish, StayInOrder};
ghost use Rattle.mpi_call.specs.Steady.{ArrivesSteady, BeginsSteady, EndsSteady, StartsSteady, SteadyBegin};

/// A law: the requests of a rank stay in order where a call ends.
pub fn ended_calls_keep_requests_in_order()
    ensures { StayInOrder }
{}

/// A law: behind its first tick a receive may end, at its second one.
pub fn begun_receives_may_finish()
    ensures { ReceivesMayFinish }
{}

/// A law: what holds of a rank's MPI data from call to call holds behind the arrival of a message, and no live request is lost.
pub fn arrivals_keep_ranks_steady()
    ensures { ArrivesSteady }
{}

/// A law: a rank of which it holds may begin a call.
pub fn steady_ranks_may_begin()
    ensures { SteadyBegin }
{}

/// A law: it holds behind each tick at which a call begins.
pub fn begun_calls_keep_ranks_steady()
    ensures { BeginsSteady }
{}

/// A law: it holds behind the second tick of a receive, and behind Wait, Waitall and Test.
pub fn ended_calls_keep_ranks_steady()
    ensures { EndsSteady }
{}

/// A law: it holds of a rank before its first call.
pub fn ranks_start_steady()
    ensures { StartsSteady }
{}
