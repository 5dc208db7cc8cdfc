// What takes a replacement of code back.

/// What takes a load, a purge or a removal back, and with it the kill of the processes that lingered in what was purged, and what
/// that did to their children.
#[derive(Drop)]
pub struct ReplacementUndo {
    /// What takes the change of modules and processes back.
    pub code: code_loading::LoadUndo,
    /// What lets children run again; none where nobody was killed.
    pub ended: Option<app_table::AppsUndo>,
}

/// What takes several purges back, and with them the kill of the processes that lingered in what was purged, and what that did to
/// their children.
#[derive(Drop)]
pub struct Purges {
    /// What takes the change of modules and processes back.
    pub code: code_loading::Purges,
    /// What lets children run again; none where nobody was killed.
    pub ended: Option<app_table::AppsUndo>,
}
