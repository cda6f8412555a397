//! What the program's words ask for, with the bytes of the files that they name.

ghost use Rattle.std.specs.Prelude.{◌≡◌, ◌≤◌, ◌+◌, ◌-◌, IfOk, IfErr, IfSome, Some, is_some, length};
ghost use Rattle.pb_value.specs.Limits.{max_bytes};
ghost use Rattle.pb_cli.specs.Done.{IsBundleOf, IsWantedBy};
ghost use Rattle.pb_cli.specs.RoleFiles.{AreRolesIn};

use crate::files::{FileFault, read_named};
use crate::playing::Wanted;
use crate::role_files::read_role_files;
use pb_command_line::words::Request;
use pb_roles::RoleFiles;
use pb_state::{Bundle, MAX_BYTES};
use pb_value::items::Items;
use pb_value::text::Text;
use std::fs;
use std::fs::Files;

/// What was asked for, with the bytes of the files.
pub(crate) struct Asked {
    pub(crate) bundle: Bundle,
    pub(crate) wanted: Wanted,
    pub(crate) outcomes_path: Option<Text>,
    pub(crate) failed: Option<Text>,
    pub(crate) trail: Option<Text>,
    pub(crate) same_under: Option<u32>,
    pub(crate) places: bool,
}

// (by hand: it is then dropped by one call, and not part by part at each exit)
impl Drop for Asked {
    fn drop(self) {
        let Asked {
            bundle,
            wanted,
            outcomes_path,
            failed,
            trail,
            same_under: _,
            places: _,
        } = self;
        drop(bundle);
        drop(wanted);
        drop(outcomes_path);
        drop(failed);
        drop(trail);
    }
}

/// The files' bytes: of each as many as the bundle has room for, and one more where there are more.
pub(crate) fn read_files<R: Files + AllocGlobal>(
    rt: &R,
    request: Request,
) -> Result<Asked, FileFault>
    ensures bundle { IfOk result (λ asked. IsBundleOf request asked.bundle) }
    ensures wanted { IfOk result (λ asked. IsWantedBy request asked.wanted) }
    ensures trail { IfOk result (λ asked. asked.trail ≡ request.trail) }
    ensures under { IfOk result (λ asked. asked.same_under ≡ request.same_under) }
    ensures failed { IfOk result (λ asked. asked.failed ≡ request.failed) }
    ensures places { IfOk result (λ asked. asked.places ≡ request.places) }
{
    match read_parts(rt, &request) {
        Ok(parts) => read_beside(rt, request, parts),
        Err(fault) => {
            drop(request);
            Err(fault)
        }
    }
}

/// What was asked for, with the bytes of the files that a bundle isn't made of.
fn read_beside<R: Files + AllocGlobal>(
    rt: &R,
    request: Request,
    parts: Parts,
) -> Result<Asked, FileFault>
    requires inventory { length parts.inventory ≤ max_bytes + 1 }
    requires playbook { length parts.playbook ≤ max_bytes - length parts.inventory + 1 }
    requires roles { AreRolesIn (max_bytes - length parts.inventory - length parts.playbook) request.roles parts.roles.files }
    ensures bundle { IfOk result (λ asked. IsBundleOf request asked.bundle) }
    ensures wanted { IfOk result (λ asked. IsWantedBy request asked.wanted) }
    ensures trail { IfOk result (λ asked. asked.trail ≡ request.trail) }
    ensures under { IfOk result (λ asked. asked.same_under ≡ request.same_under) }
    ensures failed { IfOk result (λ asked. asked.failed ≡ request.failed) }
    ensures places { IfOk result (λ asked. asked.places ≡ request.places) }
{
    match read_outcomes_and_trail(rt, &request) {
        Ok(files) => Ok(asked_of(request, parts, files)),
        Err(fault) => {
            drop(parts);
            drop(request);
            Err(fault)
        }
    }
}

/// The bytes of the files that say what came of jobs, and of a run, if they were asked for.
#[derive(Drop)]
struct OutcomesAndTrail {
    outcomes: Option<Items<u8>>,
    audited: Option<Items<u8>>,
}

/// The files that a bundle isn't made of.
fn read_outcomes_and_trail<R: Files + AllocGlobal>(
    rt: &R,
    request: &Request,
) -> Result<OutcomesAndTrail, FileFault>
    ensures outcomes { IfOk result (λ files. is_some files.outcomes ≡ is_some request.now.outcomes) }
    ensures audited { IfOk result (λ files. is_some files.audited ≡ is_some request.now.audit) }
{
    let outcomes = read_outcomes(rt, &request.outcomes)?;
    match read_audited(rt, &request.audit) {
        Ok(audited) => Ok(OutcomesAndTrail { outcomes, audited }),
        Err(fault) => {
            drop(outcomes);
            Err(fault)
        }
    }
}

/// What a request asks for, with the bytes of its files.
fn asked_of(request: Request, parts: Parts, files: OutcomesAndTrail) -> Asked
    requires inventory { length parts.inventory ≤ max_bytes + 1 }
    requires playbook { length parts.playbook ≤ max_bytes - length parts.inventory + 1 }
    requires roles { AreRolesIn (max_bytes - length parts.inventory - length parts.playbook) request.roles parts.roles.files }
    requires outcomes { is_some files.outcomes ≡ is_some request.outcomes }
    requires audited { is_some files.audited ≡ is_some request.audit }
    ensures bundle { IsBundleOf request result.bundle }
    ensures wanted { IsWantedBy request result.wanted }
    ensures trail { result.trail ≡ request.trail }
    ensures under { result.same_under ≡ request.same_under }
    ensures failed { result.failed ≡ request.failed }
    ensures places { result.places ≡ request.places }
{
    let bundle = Bundle {
        inventory: parts.inventory,
        playbook: parts.playbook,
        limit: request.limit,
        extra: request.extra,
        roles: parts.roles,
        forks: request.forks,
        has_facts_program: request.facts_program.is_some(),
    };
    let wanted = Wanted {
        purpose: request.purpose,
        strict: request.strict,
        stop_after: request.stop_after,
        facts_program: request.facts_program,
        outcomes: files.outcomes,
        audited: files.audited,
    };
    drop(request.inventory);
    drop(request.playbook);
    drop(request.roles);
    drop(request.audit);
    Asked {
        bundle,
        wanted,
        outcomes_path: request.outcomes,
        failed: request.failed,
        trail: request.trail,
        same_under: request.same_under,
        places: request.places,
    }
}

/// The bytes of the files that a bundle is made of.
#[derive(Drop)]
struct Parts {
    inventory: Items<u8>,
    playbook: Items<u8>,
    roles: RoleFiles,
}

/// The files of the bundle. Those of roles have the room that the inventory and the playbook leave.
fn read_parts<R: Files + AllocGlobal>(rt: &R, request: &Request) -> Result<Parts, FileFault>
    ensures inventory { IfOk result (λ parts. length parts.inventory ≤ max_bytes + 1) }
    ensures playbook { IfOk result (λ parts. length parts.playbook ≤ max_bytes - length parts.inventory + 1) }
    ensures roles { IfOk result (λ parts. AreRolesIn (max_bytes - length parts.inventory - length parts.playbook) request.now.roles parts.roles.files) }
{
    let inventory = read_named(rt, request.inventory.as_str(), MAX_BYTES)?;
    let room = MAX_BYTES.saturating_sub(inventory.len());
    let playbook = read_named(rt, request.playbook.as_str(), room)?;
    let room = room.saturating_sub(playbook.len());
    let roles = read_roles(rt, &request.roles, room)?;
    Ok(Parts {
        inventory: Items::from_vec(inventory),
        playbook: Items::from_vec(playbook),
        roles,
    })
}

/// The files of the roles, if a folder of them was asked for.
fn read_roles<R: Files + AllocGlobal>(
    rt: &R,
    dir: &Option<Text>,
    room: usize,
) -> Result<RoleFiles, FileFault>
    requires { room ≤ max_bytes }
    ensures { IfOk result (λ roles. AreRolesIn room dir.now roles.files) }
{
    match dir {
        Some(dir) => read_role_files(rt, dir.as_str(), room),
        None => Ok(RoleFiles {
            files: Items::new(rt.alloc()),
        }),
    }
}

/// The bytes of the file of outcomes, if one was asked for: at most 64 MiB and one more.
fn read_outcomes<R: Files + AllocGlobal>(
    rt: &R,
    path: &Option<Text>,
) -> Result<Option<Items<u8>>, FileFault>
    ensures named { IfOk result (λ bytes. is_some bytes ≡ is_some path.now) }
    ensures bound { IfOk result (λ bytes. IfSome bytes (λ bytes. length bytes ≤ max_bytes + 1)) }
    ensures fault { IfErr result (λ fault. IfSome fault.path (λ named. path.now ≡ Some named)) }
{
    match path {
        Some(path) => {
            let bytes = read_named(rt, path.as_str(), MAX_BYTES)?;
            Ok(Some(Items::from_vec(bytes)))
        }
        None => Ok(None),
    }
}

/// The bytes of the trail that is to be looked at, if one was asked for, however many there are.
fn read_audited<R: Files + AllocGlobal>(
    rt: &R,
    path: &Option<Text>,
) -> Result<Option<Items<u8>>, FileFault>
    ensures named { IfOk result (λ bytes. is_some bytes ≡ is_some path.now) }
    ensures fault { IfErr result (λ fault. IfSome fault.path (λ named. path.now ≡ Some named)) }
{
    match path {
        Some(path) => match fs::read(rt, path.as_str()) {
            Ok(bytes) => Ok(Some(Items::from_vec(bytes))),
            Err(error) => Err(FileFault::at(rt.alloc(), path.as_str(), error)),
        },
        None => Ok(None),
    }
}
