ghost use Rattle.std.specs.Prelude.{◌≡◌, ◌+◌, ◌-◌, ◌^◌, ◌<◌, ◌≤◌, ℕ, List, Option, IfOk, IfErr, length, map, string_bytes, vec_len};
ghost use Rattle.lsp_docs.specs.Documents.{MOST_FILES};
ghost use Rattle.srb_text.specs.Limits.{MOST_BYTES};
ghost use Rattle.srb_io.specs.Files.{AreFirst, AreInOrder, AreListed, FolderFile};
ghost use Rattle.run_serve.specs.Projects.{IsWithin};
ghost use Rattle.srb_cli.specs.Folders.{IsFolder, IsUnread, IsTold, IsFileUnread};

use lsp_docs::FILES_LIMIT;
use srb_io::{Files, FilesEnd};
use srb_terms::{Cause, Name, Project};
use srb_text::BYTES_LIMIT;
use std::alloc::Global;

/// The cause where a file is larger than the room.
fn too_large(alloc: Global, path: &str) -> Cause
    ensures { (told : Option (List FolderFile)) (bytes : List ℕ) (room before after : ℕ) → AreFirst told path.now (room + 1) bytes → room < length bytes → after ≡ before → IsFileUnread result told path.now room before after }
{
    match Name::from_str(alloc, path) {
        Ok(path) => Cause::TooBig { path },
        Err(_) => Cause::NoMemory,
    }
}

/// All bytes of the file at `path`, of which there may be `room`.
fn read_file<F: Files>(
    alloc: Global,
    files: &mut F,
    dir: &str,
    path: &str,
    room: usize,
) -> Result<Vec<u8>, Cause>
    requires countable { F.faults files.old < 2 ^ 64 - 1 }
    requires room { room ≤ MOST_BYTES }
    ensures told { F.told files.new ≡ F.told files.old }
    ensures there { IfOk result (λ bytes. IsTold (F.told files.old dir.now) (path.now, bytes.items)) }
    ensures within { IfOk result (λ bytes. vec_len bytes ≤ room) }
    ensures unfailed { IfOk result (λ bytes. F.faults files.new ≡ F.faults files.old) }
    ensures unread { IfErr result (λ cause. IsFileUnread cause (F.told files.old dir.now) path.now room
        (F.faults files.old) (F.faults files.new)) }
{
    match files.read(alloc, dir, path, room as u64 + 1) {
        Ok(bytes) => {
            if bytes.len() > room {
                return Err(too_large(alloc, path));
            }
            Ok(bytes)
        }
        Err(FilesEnd::Failed) => Err(Cause::ReadFault),
        Err(FilesEnd::NoMemory) => Err(Cause::NoMemory),
    }
}

/// The files at these paths, which a folder was found to have.
fn read_files<F: Files>(
    alloc: Global,
    files: &mut F,
    dir: &str,
    paths: &[String],
) -> Result<Project, Cause>
    requires countable { F.faults files.old < 2 ^ 64 - 1 }
    requires ordered { AreInOrder (map string_bytes paths.now) }
    requires listed { AreListed (F.told files.old dir.now) (map string_bytes paths.now) }
    requires few { length paths.now ≤ MOST_FILES }
    ensures folder { IfOk result (λ project. IsFolder (F.told files.old dir.now) project) }
    ensures within { IfOk result (λ project. IsWithin project) }
    ensures unfailed { IfOk result (λ project. F.faults files.new ≡ F.faults files.old) }
    ensures unread { IfErr result (λ cause. IsUnread cause (F.told files.old dir.now) (F.faults files.old) (F.faults files.new)) }
{
    let mut project = Project::new(alloc);
    let mut room = BYTES_LIMIT;
    'paths: for path in paths {
        let path = path.as_str();
        let bytes = match read_file(alloc, files, dir, path, room) {
            Ok(bytes) => bytes,
            Err(cause) => return Err(cause),
        };
        room -= bytes.len();
        let Ok(name) = Name::from_str(alloc, path) else {
            return Err(Cause::NoMemory);
        };
        let Ok(()) = project.put(name, bytes) else {
            return Err(Cause::NoMemory);
        };
    }
    Ok(project)
}

/// The project of the files below `dir`, or why it can't be had.
pub fn read_folder<F: Files>(alloc: Global, files: &mut F, dir: &str) -> Result<Project, Cause>
    requires { F.faults files.old < 2 ^ 64 - 1 }
    ensures folder { IfOk result (λ project. IsFolder (F.told files.old dir.now) project) }
    ensures within { IfOk result (λ project. IsWithin project) }
    ensures unfailed { IfOk result (λ project. F.faults files.new ≡ F.faults files.old) }
    ensures unread { IfErr result (λ cause. IsUnread cause (F.told files.old dir.now) (F.faults files.old) (F.faults files.new)) }
{
    let paths = match files.list(alloc, dir) {
        Ok(paths) => paths,
        Err(FilesEnd::Failed) => return Err(Cause::ReadFault),
        Err(FilesEnd::NoMemory) => return Err(Cause::NoMemory),
    };
    if paths.len() > FILES_LIMIT {
        return Err(Cause::TooMany {
            files: paths.len() as u64,
        });
    }
    read_files(alloc, files, dir, paths.as_slice())
}
