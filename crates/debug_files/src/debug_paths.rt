//! Where the file with a program's debug information may be.

ghost use Rattle.std.specs.Prelude.{◌≡◌, [], ◌++◌, ◌∷◌, map, string_bytes, IfOk, OnOk};
ghost use Rattle.std.specs.Option.{option_copied, option_map_or};
ghost use Rattle.debug_files.specs.DebugPaths.{folder, build_id_path, build_id_paths, link_paths};
ghost use Rattle.debug_files.specs.DebugPaths.{debug_file_paths};

use std::alloc::{AllocError, Global};

/// The directory where debug files are, unless another is named.
pub const DEBUG_DIRECTORY: &str = "/usr/lib/debug";

/// Three texts, one after the other.
fn joined(alloc: Global, first: &str, second: &str, third: &str) -> Result<String, AllocError>
    ensures { IfOk result (λ text. string_bytes text ≡ first.now ++ second.now ++ third.now) }
{
    let mut text = String::new(alloc);
    text.push_str(first)?;
    text.push_str(second)?;
    text.push_str(third)?;
    Ok(text)
}

/// The folder of a path, with its slash; empty where the path has no slash.
fn folder(alloc: Global, path: &str) -> Result<String, AllocError>
    ensures { IfOk result (λ text. string_bytes text ≡ folder path.now) }
{
    match path.rsplit_once('/') {
        Some((before, _)) => joined(alloc, before, "/", ""),
        None => Ok(String::new(alloc)),
    }
}

/// Where the debug file of a build id is in a directory: the first byte of the id names a folder,
/// and the rest names a file in it.
fn build_id_path(
    alloc: Global,
    directory: &str,
    first: u8,
    rest: &[u8],
) -> Result<String, AllocError>
    ensures { IfOk result (λ text.
        string_bytes text ≡ build_id_path directory.now first rest.now) }
{
    let shelf = hex::encode(alloc, [first].as_slice())?;
    let name = hex::encode(alloc, rest)?;
    let folder = joined(alloc, directory, "/.build-id/", &shelf)?;
    let path = joined(alloc, &folder, "/", &name)?;
    joined(alloc, &path, ".debug", "")
}

/// Adds a path that is three texts, one after the other.
fn add_joined(
    alloc: Global,
    paths: &mut Vec<String>,
    first: &str,
    second: &str,
    third: &str,
) -> Result<(), AllocError>
    ensures { OnOk result (map string_bytes paths.new.items
        ≡ map string_bytes paths.old.items ++ (first.now ++ second.now ++ third.now) ∷ []) }
{
    let path = joined(alloc, first, second, third)?;
    paths.push(path)?;
    Ok(())
}

/// Adds the paths where a file of this name may be, for a program in a folder.
fn add_links(
    alloc: Global,
    paths: &mut Vec<String>,
    directory: &str,
    folder: &str,
    name: &str,
) -> Result<(), AllocError>
    ensures { OnOk result (map string_bytes paths.new.items
        ≡ map string_bytes paths.old.items ++ link_paths directory.now folder.now name.now) }
{
    add_joined(alloc, paths, folder, name, "")?;
    add_joined(alloc, paths, folder, ".debug/", name)?;
    if folder.starts_with('/') {
        add_joined(alloc, paths, directory, folder, name)?;
    }
    Ok(())
}

/// The path where the debug file of a build id is in a directory, where the id is known.
fn build_id_paths(
    alloc: Global,
    directory: &str,
    build_id: Option<&[u8]>,
) -> Result<Vec<String>, AllocError>
    ensures { IfOk result (λ paths. map string_bytes paths.items
        ≡ option_map_or (build_id_paths directory.now) (option_copied build_id.entry) []) }
{
    let mut paths = Vec::new(alloc);
    if let Some([first, rest @ ..]) = build_id {
        paths.push(build_id_path(alloc, directory, *first, rest)?)?;
    }
    Ok(paths)
}

/// The paths at which the debug file of a program may be, in the order in which they are tried: by
/// the build id of the program, where it is known, in `.build-id` of the directory of debug files,
/// and then by the name that its link has, in the folder of the program, in `.debug` there, and
/// below the directory of debug files where the path of the program begins with a slash.
pub fn debug_file_paths(
    alloc: Global,
    directory: &str,
    path: &str,
    build_id: Option<&[u8]>,
    link: Option<&str>,
) -> Result<Vec<String>, AllocError>
    ensures { IfOk result (λ paths. map string_bytes paths.items ≡ debug_file_paths
        directory.now path.now (option_copied build_id.entry) (option_copied link.entry)) }
{
    let mut paths = build_id_paths(alloc, directory, build_id)?;
    if let Some(name) = link {
        let folder = folder(alloc, path)?;
        add_links(alloc, &mut paths, directory, &folder, name)?;
    }
    Ok(paths)
}
