//! Where a session stands in its script.
ghost use Rattle.std.specs.Prelude.{◌≡◌, [], Some, None, false, IfSome, IfNone, is_some, length};
ghost use Rattle.ed_session.specs.Sessions.{is_started, is_waiting, listed_left, path_of};

use crate::phase::Phase;
use crate::session::Session;
use line_store::LineStore;

impl<S: LineStore> Session<S> {
    /// It has been given its start file, or none. A session whose run is over counts as started.
    pub fn started(&self) -> bool
        ensures value { result ≡ is_started self.now.phase }
    {
        !matches!(&self.phase, Phase::Fresh(_))
    }

    /// How many commands of the script are left, that which is being done among them; those of the list of a global command that is
    /// open don't count, nor does that command.
    pub fn left(&self) -> usize
        ensures value { result ≡ length self.now.steps }
    {
        self.agenda.left()
    }

    /// A global command is open: its list is run.
    pub fn in_list(&self) -> bool
        ensures value { result ≡ is_some self.now.running_list }
    {
        self.agenda.in_list()
    }

    /// How many commands of the list of an open global command are left for the line that was taken, that which is being done among
    /// them. Where none is open, it is 0.
    pub fn left_in_list(&self) -> usize
        ensures value { result ≡ listed_left self.now.running_list }
    {
        self.agenda.left_in_list()
    }

    /// It waits for the answer to a request.
    pub fn waits(&self) -> bool
        ensures value { result ≡ is_waiting self.now.phase }
    {
        matches!(&self.phase, Phase::Waiting)
    }

    /// The path of the start file, till the session starts.
    pub(crate) fn start_path(&self) -> Option<&[u8]>
        ensures given { IfSome result (λ path. path_of self.now.phase ≡ Some path.now) }
        ensures without { IfNone result (path_of self.now.phase ≡ None) }
        ensures handed_out { is_started self.now.phase ≡ false → self.now.pending ≡ [] }
    {
        match &self.phase {
            Phase::Fresh(Some(path)) => Some(path.as_slice()),
            _ => None,
        }
    }
}
