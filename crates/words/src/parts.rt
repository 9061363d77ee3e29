// The parts of the ledger: fences, phases, vCPUs, regions, places and marks.
ghost use Rattle.std.specs.Prelude.{◌≡◌, ◌<◌};
ghost use Rattle.std.proofs.Math.Option.{some};
ghost use Rattle.sets.specs.Terms.{put as store};
ghost use Rattle.rules.specs.Ledger.{with_global, with_slot, with_hart, with_fence, slot as slot_with, inside, outside, flushes};
ghost use Rattle.rules.specs.Encoding.{view, read, part, bits, tracker_of};
ghost use Rattle.fences.specs.Trackers.{tracked, global_of, tvm_of};
ghost use Rattle.words.specs.Parts.{Packed, region_of, place_is};

use super::Words;
use super::below::{Hart, Slot, Vcpu};
use super::cells::{cell, in_part, put, upper, word};
use fences::{GlobalTracker, Tracker, TvmTracker, TvmVersion, Version};

// Where each run begins in the one lent array, which is C's: so runs that belong together, as firsts and lengths of regions, stand apart in it.
const FENCES: usize = 2;

const PHASES: usize = 18;

const FIRSTS: usize = 34;

const LENGTHS: usize = 162;

const PLACES: usize = 290;

const MARKS: usize = 298;

#[derive(Clone, Copy)]
pub struct Region {
    pub first: u32,
    pub pages: u32,
}

// A fence's word put together, with what else stands in it, and the fence of one.
fn pack<V: Version>(t: Tracker<V>, above: u8) -> u32
    ensures { Packed (V.number t.version) t.awaited above result }
{
    let [low, high] = t.version.number().to_le_bytes();
    u32::from_le_bytes([low, high, t.awaited, above])
}

fn unpack<V: Version>(x: u32) -> Tracker<V>
    ensures { tracked V.number result ≡ tracker_of x }
{
    let [low, high, awaited, _] = x.to_le_bytes();
    let version = V::new(u16::from_le_bytes([low, high]));
    Tracker { version, awaited }
}

pub fn global(l: &Words) -> GlobalTracker
    ensures { global_of result ≡ (view l.now).global }
{
    unpack(word(l, 0))
}

pub fn set_global(l: &mut Words, g: GlobalTracker)
    ensures { view l.new ≡ with_global (global_of g) (view l.old) }
{
    let harts = upper(word(&*l, 0));
    put(l, 0, pack(g, harts));
}

// (This and `phase` are one call of `in_part` each: a const parameter for the run would be no shorter.)
fn fence_word(l: &Words, k: u64) -> u32
    ensures { result ≡ part (read l.now) 2 16 k }
{
    in_part(l, FENCES, 16, k)
}

pub fn fence(l: &Words, k: u64) -> TvmTracker
    ensures { tvm_of result ≡ ((view l.now).slot k).fence }
{
    unpack(fence_word(l, k))
}

// The vCPUs made, as a set in a byte.
pub fn made(l: &Words, k: u64) -> u8
    ensures { bits result ≡ ((view l.now).slot k).made }
{
    upper(fence_word(l, k))
}

pub fn set_fence(l: &mut Words, k: Slot, t: TvmTracker)
    ensures { view l.new ≡ with_slot k (with_fence (tvm_of t) ((view l.old).slot k)) (view l.old) }
{
    let k = k.number();
    let made = upper(fence_word(&*l, k));
    put(l, FENCES + k as usize, pack(t, made));
}

// A fence with the vCPUs that are made from now on.
pub fn set_made(l: &mut Words, k: Slot, t: TvmTracker, vcpus: u8)
    ensures { view l.new ≡ with_slot k (slot_with ((view l.old).slot k).phase (tvm_of t) (bits vcpus) ((view l.old).slot k).region) (view l.old) }
{
    put(l, FENCES + k.number() as usize, pack(t, vcpus));
}

pub fn phase(l: &Words, k: u64) -> u32
    ensures { result ≡ ((view l.now).slot k).phase }
{
    in_part(l, PHASES, 16, k)
}

// (A word may hold any phase, and this writes any.)
pub fn set_phase(l: &mut Words, k: Slot, phase: u32)
    ensures { view l.new ≡ with_slot k (slot_with phase ((view l.old).slot k).fence ((view l.old).slot k).made ((view l.old).slot k).region) (view l.old) }
{
    put(l, PHASES + k.number() as usize, phase);
}

pub fn region_at(l: &Words, k: u64, i: u64) -> Region
    ensures { region_of result ≡ ((view l.now).slot k).region i }
{
    let first = cell::<16, 8>(l, FIRSTS, k, i);
    let pages = cell::<16, 8>(l, LENGTHS, k, i);
    Region { first, pages }
}

pub fn set_region(l: &mut Words, k: Slot, i: u64, r: Region)
    requires { i < 8 }
    ensures { view l.new ≡ with_slot k (slot_with ((view l.old).slot k).phase ((view l.old).slot k).fence ((view l.old).slot k).made (store i (region_of r) ((view l.old).slot k).region)) (view l.old) }
{
    let at = (8 * k.number() + i) as usize;
    put(&mut *l, FIRSTS + at, r.first);
    put(l, LENGTHS + at, r.pages);
}

// What a hart is inside of: the vCPU of a slot.
#[derive(Clone, Copy)]
pub struct Seat {
    pub slot: u32,
    pub vcpu: u32,
}

// Where a hart is; outside, it has no seat.
pub fn place_of(l: &Words, h: u64) -> Option<Seat>
    ensures { place_is result ≡ ((view l.now).hart h).place }
{
    let x = in_part(l, PLACES, 8, h);
    let at = x.checked_sub(1)?;
    Some(Seat {
        slot: at / 8,
        vcpu: at % 8,
    })
}

pub fn set_outside(l: &mut Words, h: Hart)
    ensures { view l.new ≡ with_hart h (record { place = outside; mark = ((view l.old).hart h).mark }) (view l.old) }
{
    put(l, PLACES + h.number() as usize, 0);
}

// Inside the vCPU of a slot, with the slot's version as the mark.
pub fn set_inside(l: &mut Words, h: Hart, k: Slot, v: Vcpu, version: TvmVersion)
    ensures { view l.new ≡ with_hart h (record { place = inside k v; mark = store k (some version.0) ((view l.old).hart h).mark }) (view l.old) }
{
    let (h, k, v) = (h.number(), k.number(), v.number());
    put(&mut *l, PLACES + h as usize, (8 * k + v + 1) as u32);
    put(l, MARKS + (16 * h + k) as usize, version.0 as u32 + 1);
}

// Entry of the hart into the slot flushes. (A mark that no version can be is none of them.)
pub fn enters_flushed(l: &Words, h: u64, k: u64, version: TvmVersion) -> bool
    ensures { result ≡ flushes (((view l.now).hart h).mark k) version.0 }
{
    let x = cell::<8, 16>(l, MARKS, h, k);
    if x == 0 {
        return fences::flushes(None, version);
    }
    match u16::try_from(x - 1) {
        Ok(mark) => fences::flushes(Some(TvmVersion(mark)), version),
        Err(_) => true,
    }
}
