//! Whether commits are missing from a listing of a folder, which is then listed again. No clause stands on it.
use store_core::{is_commit, version_in};

/// Whether a version lacks its commit between the first commit and the last commit or checkpoint of names in the order
/// of their bytes. Versions past 2^64 - 1, which no commit has, aren't looked at. Takes time linear in the count of
/// names.
pub(crate) fn has_gap(names: &[String]) -> bool {
    let mut first = None;
    let mut last: u64 = 0;
    let mut commits: u64 = 0;
    for name in names {
        if let Some(version) = version_in(name.as_bytes()) {
            last = version;
            if is_commit(name.as_bytes()) {
                first = Some(first.unwrap_or(version));
                commits = commits.saturating_add(1);
            }
        }
    }
    first.is_some_and(|first| last.saturating_sub(first) >= commits)
}
