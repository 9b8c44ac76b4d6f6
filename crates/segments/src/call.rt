// What a folder is asked for.
/// A call that changes a folder or makes it durable.
#[derive(Clone, Copy)]
pub enum FolderCall {
    /// The manifest's file was opened, and made where it was missing.
    OpensManifest,
    /// The file of this segment was opened, and made where it was missing.
    Opens(u64),
    /// The file of this segment was removed, and the file of its list before it.
    Removes(u64),
    /// The names of the files were made durable.
    Syncs,
    /// The blob of this segment was taken back, with all of its bytes durable.
    Closes(u64),
    /// The file of this segment's list was made to hold the levels of the segment.
    WritesList(u64),
    /// The copy of the manifest was made to hold the manifest's bytes. With them it has the number
    /// of the open segment, and how many logical bytes of that one were durable.
    Keeps(u64, u64),
}
