//! The fields and channels of a class.

ghost use Rattle.std.specs.Prelude.{◌≡◌, ◌≤◌, ◌+◌, map, count_by, IfOk, if◌then◌else◌};
ghost use Rattle.par_resolved.specs.declared.limits.TheConstants.{MOST_POLICIES};
ghost use Rattle.par_resolved.specs.Resolved as info;
ghost use Rattle.par_resolved.specs.Resolved.{may_number};
ghost use Rattle.par_table.specs.Seen.{resolved_seen};

use crate::resolved::Resolved;
use par_lexer::list::List;
use par_resolved::NoMemory;
use par_tree::decl::{ChannelDecl, FieldDecl};
use par_typed::table::{ChannelInfo, FieldInfo};
use std::alloc::Global;

// The number of the policy of a field, where the next inferred one has this number.
fn policy_number(
    alloc: Global,
    resolved: &Resolved<'_>,
    next: u16,
    field: &FieldDecl,
) -> Result<u16, NoMemory>
    ensures { IfOk result (λ n. n ≡ (if field.now.inferred then next
        else may_number (resolved_seen resolved.now) field.now.policy)) }
{
    if field.inferred {
        return Ok(next);
    }
    resolved.may_number(alloc, field.policy.as_ref())
}

fn field_info(
    alloc: Global,
    resolved: &Resolved<'_>,
    next: u16,
    field: &FieldDecl,
) -> Result<FieldInfo, NoMemory>
    ensures { IfOk result (λ made.
        made ≡ info.field_info (resolved_seen resolved.now) next field.now) }
{
    let policy = policy_number(alloc, resolved, next, field)?;
    Ok(FieldInfo {
        name: field.id.name.copy(alloc)?,
        is_static: field.is_static,
        ty: resolved.type_of(&field.ty),
        policy,
        inferred: field.inferred,
    })
}

// The number of the next inferred field behind a field.
fn number_behind(next: u16, is_inferred: bool) -> u16
    requires { next ≤ MOST_POLICIES }
    ensures { result ≡ (if is_inferred then next + 1 else next) }
{
    if is_inferred { next + 1 } else { next }
}

/// The fields of a class, of which the inferred ones have numbers from `next` on.
pub fn field_infos(
    alloc: Global,
    resolved: &Resolved<'_>,
    next: u16,
    fields: &[FieldDecl],
) -> Result<List<FieldInfo>, NoMemory>
    requires { next + count_by (λ f. f.inferred) fields.now ≤ MOST_POLICIES }
    ensures { IfOk result (λ made.
        made ≡ info.field_infos (resolved_seen resolved.now) next fields.now) }
{
    let mut made = List::new(alloc);
    let mut next = next;
    for field in fields {
        made.push(field_info(alloc, resolved, next, field)?)?;
        next = number_behind(next, field.inferred);
    }
    Ok(made)
}

/// The number of the next inferred field behind these.
pub fn number_behind_all(next: u16, fields: &[FieldDecl]) -> u16
    requires { next + count_by (λ f. f.inferred) fields.now ≤ MOST_POLICIES }
    ensures { result ≡ next + count_by (λ f. f.inferred) fields.now }
{
    let mut behind = next;
    for field in fields {
        behind = number_behind(behind, field.inferred);
    }
    behind
}

fn channel_info(
    alloc: Global,
    resolved: &Resolved<'_>,
    channel: &ChannelDecl,
) -> Result<ChannelInfo, NoMemory>
    ensures { IfOk result (λ made.
        made ≡ info.channel_info (resolved_seen resolved.now) channel.now) }
{
    let policy = resolved.may_number(alloc, channel.policy.as_ref())?;
    Ok(ChannelInfo {
        name: channel.id.name.copy(alloc)?,
        is_input: channel.is_input,
        policy,
    })
}

/// The channels of a class.
#[tactic(auto, using(par_parts::proofs::Pushes::pushes))]
pub fn channel_infos(
    alloc: Global,
    resolved: &Resolved<'_>,
    channels: &[ChannelDecl],
) -> Result<List<ChannelInfo>, NoMemory>
    ensures { IfOk result (λ made.
        made ≡ map (info.channel_info (resolved_seen resolved.now)) channels.now) }
{
    let mut made = List::new(alloc);
    for channel in channels {
        made.push(channel_info(alloc, resolved, channel)?)?;
    }
    Ok(made)
}
