//! The engine's side, as the tests have it.

use library_desk::LibraryDesk;
use session_book::Unkept;
use session_desk::Routes;

/// The sessions with what the engine has of its libraries, the routes of those that accept, what is
/// noted of each session's entries, and the session that dials, if one does.
#[derive(Drop)]
pub struct EngineDesk {
    pub libraries: LibraryDesk,
    pub routes: Routes,
    pub unkept: Vec<Unkept>,
    pub dialler: Option<u16>,
}
