//! Reading the whole input, and no more of it than a script can have, as a script, as a dealt one, as a
//! lease script, as a resume script, or as a claimed history.

ghost use Rattle.std.specs.Prelude.{◌≡◌, ◌<◌, ◌≤◌, length, vec_len, IfOk, IfErr};
ghost use Rattle.rht_script.specs.Grammar.{reading_of};
ghost use Rattle.rht_script.specs.Reading.{said_by};
ghost use Rattle.rht_script.specs.Dealt.{dealing_of, IsDealtScript};
ghost use Rattle.rht_script.specs.Sound.{IsSoundScript};
ghost use Rattle.rht_lease.specs.Reading.{lease_reading_of, said_by_leases};
ghost use Rattle.rht_lease.specs.Scripts.{IsSoundLeases};
ghost use Rattle.rht_resume.specs.Reading.{resume_reading_of, said_by_resume};
ghost use Rattle.rht_resume.specs.Scripts.{IsSoundResume};
ghost use Rattle.rht_check.specs.Claims.{IsSoundClaim};
ghost use Rattle.rht_check.specs.Reading.{claim_reading_of, said_by_claim};
ghost use Rattle.rht_forms.specs.Input.{IsRead, IsMore, IsReadFault, IsScriptRead, IsDealRead, IsLeaseRead, IsResumeRead, IsClaimRead, IsUnread};

use crate::ending::Failure;
use rht_check::{Claim, read_claim};
use rht_io::Source;
use rht_lease::{LeaseScript, read_leases};
use rht_resume::{ResumeScript, read_resume};
use rht_script::{MOST_BYTES, Script, read, read_dealt};
use std::alloc::{AllocError, Global};

/// How many bytes are asked of the source at one time.
const PIECE: usize = 65_536;

/// Reads the script that the input is.
pub fn read_script<S: Source>(alloc: Global, source: &mut S) -> Result<Script, Failure>
    ensures read { IfOk result (λ script. IsScriptRead (S.left source.old) (S.left source.new) (said_by script)) }
    ensures sound { IfOk result IsSoundScript }
    ensures unread { IfErr result (IsUnread reading_of (S.left source.old) (S.left source.new)
        (S.faults source.old) (S.faults source.new)) }
{
    let bytes = read_all(alloc, source)?;
    Ok(read(alloc, &bytes)?)
}

/// Reads the dealt script that the input is.
pub fn read_deal<S: Source>(alloc: Global, source: &mut S) -> Result<Script, Failure>
    ensures read { IfOk result (λ script. IsDealRead (S.left source.old) (S.left source.new) (said_by script)) }
    ensures dealt { IfOk result IsDealtScript }
    ensures unread { IfErr result (IsUnread dealing_of (S.left source.old) (S.left source.new)
        (S.faults source.old) (S.faults source.new)) }
{
    let bytes = read_all(alloc, source)?;
    Ok(read_dealt(alloc, &bytes)?)
}

/// Reads the lease script that the input is.
pub fn read_leasing<S: Source>(alloc: Global, source: &mut S) -> Result<LeaseScript, Failure>
    ensures read { IfOk result (λ script. IsLeaseRead (S.left source.old) (S.left source.new) (said_by_leases script)) }
    ensures sound { IfOk result IsSoundLeases }
    ensures unread { IfErr result (IsUnread lease_reading_of (S.left source.old) (S.left source.new)
        (S.faults source.old) (S.faults source.new)) }
{
    let bytes = read_all(alloc, source)?;
    Ok(read_leases(alloc, &bytes)?)
}

/// Reads the claimed history that the input is.
pub fn read_claimed<S: Source>(alloc: Global, source: &mut S) -> Result<Claim, Failure>
    ensures read { IfOk result (λ claim. IsClaimRead (S.left source.old) (S.left source.new) (said_by_claim claim)) }
    ensures sound { IfOk result IsSoundClaim }
    ensures unread { IfErr result (IsUnread claim_reading_of (S.left source.old) (S.left source.new)
        (S.faults source.old) (S.faults source.new)) }
{
    let bytes = read_all(alloc, source)?;
    Ok(read_claim(alloc, &bytes)?)
}

/// Reads the resume script that the input is.
pub fn read_resuming<S: Source>(alloc: Global, source: &mut S) -> Result<ResumeScript, Failure>
    ensures read { IfOk result (λ script. IsResumeRead (S.left source.old) (S.left source.new) (said_by_resume script)) }
    ensures sound { IfOk result IsSoundResume }
    ensures unread { IfErr result (IsUnread resume_reading_of (S.left source.old) (S.left source.new)
        (S.faults source.old) (S.faults source.new)) }
{
    let bytes = read_all(alloc, source)?;
    Ok(read_resume(alloc, &bytes)?)
}

/// Reads the input to its end, or until it has one byte more than a script can have.
fn read_all<S: Source>(alloc: Global, source: &mut S) -> Result<Vec<u8>, Failure>
    ensures read { IfOk result (λ bytes. IsRead (S.left source.old) (S.left source.new) bytes.items) }
    ensures fault { IfErr result (IsReadFault (S.faults source.old) (S.faults source.new)) }
{
    let mut room = empty_room(alloc, PIECE)?;
    let mut bytes = Vec::new(alloc);
    while bytes.len() <= MOST_BYTES {
        let wanted = PIECE.min(MOST_BYTES + 1 - bytes.len());
        if !read_more(source, &mut room[..wanted], &mut bytes)? {
            return Ok(bytes);
        }
    }
    Ok(bytes)
}

/// Puts the next bytes behind the others, at most as many as have room. False at the end of the
/// input.
fn read_more<S: Source>(
    source: &mut S,
    room: &mut [u8],
    bytes: &mut Vec<u8>,
) -> Result<bool, Failure>
    requires { 0 < length room.old }
    ensures more { IfOk result (IsMore (S.left source.old) (S.left source.new)
        bytes.old.items bytes.new.items (length room.old)) }
    ensures fault { IfErr result (IsReadFault (S.faults source.old) (S.faults source.new)) }
    ensures kept { S.faults source.old ≤ S.faults source.new }
{
    match source.take(room) {
        Err(_) => Err(Failure::Read),
        Ok(count) => {
            bytes.extend_from_slice(&room[..count])?;
            Ok(count > 0)
        }
    }
}

/// Room for so many bytes.
fn empty_room(alloc: Global, bytes: usize) -> Result<Vec<u8>, AllocError>
    ensures { IfOk result (λ room. vec_len room ≡ bytes) }
{
    vec![in alloc; 0u8; bytes]
}
