// Paths of imports: `.` and `..` are taken out as far as that goes, and a path that begins at the top stays one.
use bumpalo::Bump;
use file_paths::imported_path;
use std::alloc::Global;

/// Whether this import in the file at the path `from` reads the file at `path`.
fn reads(alloc: Global, from: &str, import: &str, path: &str) -> bool {
    let bump = Bump::new(alloc);
    match imported_path(from, import, &bump) {
        Ok(found) => found == path,
        Err(_) => false,
    }
}

#[test]
fn a_path_begins_in_its_folder(rt: HostRuntime) {
    assert!(rt; reads(rt.alloc(), "main.fut", "lib", "lib.fut"));
    assert!(rt; reads(rt.alloc(), "src/main.fut", "lib", "src/lib.fut"));
    assert!(rt; reads(rt.alloc(), "src/main.fut", "./a/../b", "src/b.fut"));
}

#[test]
fn a_path_goes_up(rt: HostRuntime) {
    assert!(rt; reads(rt.alloc(), "src/main.fut", "../lib", "lib.fut"));
    assert!(rt; reads(rt.alloc(), "src/main.fut", "../../lib", "../lib.fut"));
    assert!(rt; reads(rt.alloc(), "main.fut", "../../lib", "../../lib.fut"));
}

#[test]
fn a_path_that_begins_at_the_top_stays_one(rt: HostRuntime) {
    assert!(rt; reads(rt.alloc(), "/src/main.fut", "../lib", "/lib.fut"));
    assert!(rt; reads(rt.alloc(), "/main.fut", "../lib", "/../lib.fut"));
}
