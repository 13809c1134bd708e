//! Which of some names is one too many.

ghost use Rattle.std.specs.Prelude.{◌≡◌, ◌<◌, ◌≤◌, ◌++◌, length, map, slice_get, OnOk, IfOk};
ghost use Rattle.par_tree.specs.Shown.{all_declared, class_of};
ghost use Rattle.par_tree.specs.Shown as tree;
ghost use Rattle.par_refusals.specs.First.{first_of};
ghost use Rattle.par_faults.specs.Limits.{one_too_many};
ghost use Rattle.par_faults.specs.Limits as place;

use crate::limit::Limit;
use par_lexer::memory::NoMemory;
use par_names::Named;
use par_refusals::refusal::{Findings, LIMIT_RULE, Refusal};
use par_tree::decl::{ChannelDecl, ClassDecl, Decl, MethodDecl};
use std::alloc::Global;

fn place(places: &[u32], number: usize) -> Option<u32>
    ensures { result ≡ slice_get places.now number }
{
    places.get(number).copied()
}

/// Notes the one too many of what stands at these places.
#[tactic(auto, using(crate::proofs::Placed::tells))]
pub fn check_places(limit: Limit, places: &[u32], findings: &mut Findings)
    requires { limit.most < u32.MAX }
    ensures { findings.new ≡ first_of findings.old (one_too_many limit places.now) }
{
    match place(places, limit.most as usize) {
        None => {}
        Some(at) => findings.note(Refusal {
            rule: LIMIT_RULE,
            at,
            limit: limit.number,
            count: limit.most + 1,
        }),
    }
}

// Puts the places of the names of these behind the others.
fn push_places<T: Named>(places: &mut Vec<u32>, items: &[T]) -> Result<(), NoMemory>
    ensures { OnOk result (places.new.items
        ≡ places.old.items ++ map (λ item. (T.named item).at) items.now) }
{
    for item in items {
        places.push(item.id().at)?;
    }
    Ok(())
}

/// Where the actors of a program are declared.
pub fn actor_places(alloc: Global, decls: &[Decl]) -> Result<Vec<u32>, NoMemory>
    ensures { IfOk result (λ places. places.items ≡ place.actor_places (all_declared decls.now)) }
{
    let mut places = Vec::new(alloc);
    for decl in decls {
        match decl {
            Decl::Actors(ids) => push_places(&mut places, ids.as_slice())?,
            Decl::Lock(_) | Decl::Policy(_) | Decl::Class(_) => {}
        }
    }
    Ok(places)
}

/// Where the classes of a program are declared.
pub fn class_places(alloc: Global, decls: &[Decl]) -> Result<Vec<u32>, NoMemory>
    ensures { IfOk result (λ places. places.items ≡ place.class_places (all_declared decls.now)) }
{
    let mut places = Vec::new(alloc);
    for decl in decls {
        match decl {
            Decl::Class(class) => places.push(class.id.at)?,
            Decl::Actors(_) | Decl::Lock(_) | Decl::Policy(_) => {}
        }
    }
    Ok(places)
}

// How many of these channels stand before this place, up to the first that does not.
fn earlier(channels: &[ChannelDecl], at: u32) -> usize
    ensures places { result ≡ place.earlier (map (λ c. c.id.at) channels.now) at }
    ensures within { result ≤ length channels.now }
{
    let mut earlier = 0;
    for channel in channels {
        if channel.id.at >= at {
            return earlier;
        }
        earlier += 1;
    }
    earlier
}

/// Where the fields and channels of a class are declared, in the order of the source.
pub fn member_places(alloc: Global, class: &ClassDecl) -> Result<Vec<u32>, NoMemory>
    ensures { IfOk result (λ places. places.items ≡ place.member_places (class_of class.now)) }
{
    let mut places = Vec::new(alloc);
    let channels = class.channels.as_slice();
    let mut next = 0;
    for field in class.fields.as_slice() {
        let behind = &channels[next..];
        let earlier = earlier(behind, field.id.at);
        push_places(&mut places, &behind[..earlier])?;
        places.push(field.id.at)?;
        next += earlier;
    }
    push_places(&mut places, &channels[next..])?;
    Ok(places)
}

/// Where these methods are declared.
pub fn method_places(alloc: Global, methods: &[MethodDecl]) -> Result<Vec<u32>, NoMemory>
    ensures { IfOk result (λ places. places.items ≡ map (λ m. m.id.at) (tree.methods methods.now)) }
{
    let mut places = Vec::new(alloc);
    push_places(&mut places, methods)?;
    Ok(places)
}
