// What takes a change of children and applications back.
use app_table::Unloaded;

/// What takes back what an upgrade has done to children and applications.
#[derive(Drop)]
pub enum ChildrenUndo {
    /// What takes back what was done to the processes, and to the applications, where anything was.
    Changed(Option<process_table::ProcessesUndo>, Option<app_table::AppsUndo>),
    /// This application was unloaded.
    Unloaded(Unloaded),
}
