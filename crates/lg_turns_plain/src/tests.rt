//! Threads that work on one object side by side.

ghost use Rattle.std.specs.Prelude.{◌≡◌, ◌+◌, ◌^◌, ◌<◌, IfOk};

use crate::{Account, Addition, PlainJournal, PlainPart, opening, payment};
use lg_containers::NameFault;
use lg_turns::{Blank, Mark, Name, Pass, StripeSet, Turns};
use std::alloc::Global;
use std::marker::{Brand, PhantomData};
use std::sync::Wait;
use std::sync::atomic::{AtomicBool, Ordering};
use std::test::Fail;
use std::thread;
use std::thread::{Threads, join};

type PlainTurns<N> = Turns<PlainPart, PlainJournal, N>;

/// Publishes a payment.
fn pay<N: Name, R: Wait>(
    rt: &R,
    alloc: Global,
    turns: &PlainTurns<N>,
    pass: &mut Pass,
    mark: Mark,
    from: Account<'_>,
    to: Account<'_>,
) -> Result<(), NameFault>
    requires { pass.old.table ≡ N.table }
    ensures table { pass.new.table ≡ N.table }
    ensures weight { pass.new.weight ≡ pass.old.weight }
    ensures made { IfOk result (λ _. pass.new.made ≡ pass.old.made + 1) }
{
    let event = payment(alloc, from, to)?;
    let stripes = StripeSet::none().with(from.stripe).with(to.stripe);
    let mut met = turns.take(rt, stripes).meet(rt, pass);
    let mut change = Addition {
        alloc,
        event,
        place: met.front(),
        mark,
        stripes,
    };
    match met.prepare(&mut change) {
        Ok(()) => {
            met.publish(change, pass);
            met.release();
            Ok(())
        }
        Err(error) => {
            met.release();
            Err(NameFault::from(error))
        }
    }
}

/// Publishes a hundred payments.
fn pay_often<N: Name, R: Wait>(
    rt: &R,
    alloc: Global,
    turns: &PlainTurns<N>,
    pass: Pass,
    caller: u32,
    from: Account<'_>,
    to: Account<'_>,
) -> Result<Pass, NameFault>
    requires { pass.table ≡ N.table }
    ensures { IfOk result (λ after. (after.table ≡ N.table) × (after.weight ≡ pass.weight) × (after.made ≡ pass.made + 100)) }
{
    let mut pass = pass;
    for line in 0..100u64 {
        pay(rt, alloc, turns, &mut pass, Mark { caller, line }, from, to)?;
    }
    Ok(pass)
}

fn object<N: Name>(alloc: Global, blank: Blank) -> Result<(PlainTurns<N>, Pass), NameFault>
    requires { blank.table.shared.table_id ≡ N.table }
    ensures { IfOk result (λ r. (r.1.table ≡ N.table) × (r.1.made ≡ 0) × (r.1.weight ≡ 2 ^ 32)) }
{
    let parts = PlainPart::all(alloc)?;
    let journal = PlainJournal::of(alloc, opening(alloc)?)?;
    Ok(Turns::new(blank, parts, journal))
}

/// A pass of the weight 1 whose calls made a hundred events.
#[derive(Drop)]
struct Paid<N: Name> {
    pass: Pass,
    of: PhantomData<N>,
    ghost ours: { pass.table ≡ N.table },
    ghost light: { pass.weight ≡ 1 },
    ghost made: { pass.made ≡ 100 },
}

fn pay_hundred<N: Name, R: Wait>(
    rt: &R,
    alloc: Global,
    turns: &PlainTurns<N>,
    pass: Pass,
    caller: u32,
    from: Account<'_>,
    to: Account<'_>,
) -> Result<Paid<N>, NameFault>
    requires { (pass.table ≡ N.table) × (pass.weight ≡ 1) × (pass.made ≡ 0) }
{
    let pass = pay_often(rt, alloc, turns, pass, caller, from, to)?;
    Ok(Paid {
        pass,
        of: PhantomData,
    })
}

/// Two threads publish a hundred payments each. Gives how many events there are then.
fn paid_by_two<N: Name + Send + Sync, R: Threads + Wait + Sync>(
    rt: &R,
    alloc: Global,
    blank: Blank,
    a: Account<'_>,
    b: Account<'_>,
    f: Account<'_>,
) -> Result<u64, NameFault>
    requires { blank.table.shared.table_id ≡ N.table }
    ensures { IfOk result (λ count. count ≡ 201) }
{
    let (turns, mut pass) = object::<N>(alloc, blank)?;
    let first = turns.split_pass(&mut pass);
    let second = turns.split_pass(&mut pass);
    let shared = &turns;
    let (first, second) = join(
        rt,
        move || -> Result<Paid<N>, NameFault>
            requires { (first.table ≡ N.table) × (first.weight ≡ 1) × (first.made ≡ 0) }
        { pay_hundred(rt, alloc, shared, first, 0, a, f) },
        move || -> Result<Paid<N>, NameFault>
            requires { (second.table ≡ N.table) × (second.weight ≡ 1) × (second.made ≡ 0) }
        { pay_hundred(rt, alloc, shared, second, 1, f, b) },
    );
    let Paid { pass: first, of: _ } = first?;
    turns.join_pass(&mut pass, first);
    let Paid {
        pass: second,
        of: _,
    } = second?;
    turns.join_pass(&mut pass, second);
    Ok(lg_turns::Journal::len(&turns.close(pass)))
}

#[test]
fn two_threads_publish(rt: HostRuntime) -> Result<(), Fail> {
    let alloc = rt.alloc();
    let a = Account {
        name: b"a",
        stripe: 0,
    };
    let b = Account {
        name: b"b",
        stripe: 9,
    };
    let f = Account {
        name: b"f",
        stripe: 5,
    };
    let blank = Blank::new(alloc)?;
    assert_eq!(rt; paid_by_two::<Brand, _>(&rt, alloc, blank, a, b, f)?, 201);
    Ok(())
}

/// Whether two stripes have a part, where only the second is held.
fn parts_of_one<N: Name, R: Wait>(
    rt: &R,
    alloc: Global,
    blank: Blank,
    other: u8,
    held: u8,
) -> Result<(bool, bool), NameFault>
    requires table { blank.table.shared.table_id ≡ N.table }
    requires held { held < 16 }
{
    let (turns, mut pass) = object::<N>(alloc, blank)?;
    let met = turns
        .take(rt, StripeSet::none().with(held))
        .meet(rt, &mut pass);
    let found = (met.part(other).is_some(), met.part(held).is_some());
    met.release();
    Ok(found)
}

#[test]
fn part_that_is_held(rt: HostRuntime) -> Result<(), Fail> {
    let blank = Blank::new(rt.alloc())?;
    assert_eq!(rt;
        parts_of_one::<Brand, _>(&rt, rt.alloc(), blank, 3, 5)?,
        (false, true)
    );
    Ok(())
}

fn looks_for(flag: &AtomicBool) -> bool {
    for turn in 0..100_000_000u32 {
        if flag.load(Ordering::SeqCst) {
            return true;
        }
        if turn % 1_000 == 0 {
            thread::yield_now();
        }
    }
    false
}

/// Whether the other's flag was seen while the stripe was held.
fn sees_the_other<N: Name, R: Wait>(
    rt: &R,
    turns: &PlainTurns<N>,
    pass: Pass,
    stripe: u8,
    own: &AtomicBool,
    other: &AtomicBool,
) -> bool
    requires table { pass.table ≡ N.table }
    requires stripe { stripe < 16 }
{
    let mut pass = pass;
    let fixed = turns
        .take(rt, StripeSet::none().with(stripe))
        .meet(rt, &mut pass)
        .settle();
    own.store(true, Ordering::SeqCst);
    let seen = looks_for(other);
    fixed.release();
    seen
}

/// Whether each of two threads saw the other inside its stripe.
fn both_inside<N: Name + Send + Sync, R: Threads + Wait + Sync>(
    rt: &R,
    alloc: Global,
    blank: Blank,
) -> Result<(bool, bool), NameFault>
    requires { blank.table.shared.table_id ≡ N.table }
{
    let (turns, mut first) = object::<N>(alloc, blank)?;
    let second = turns.split_pass(&mut first);
    let (one, two) = (AtomicBool::new(false), AtomicBool::new(false));
    let (shared, one, two) = (&turns, &one, &two);
    Ok(join(
        rt,
        move || -> bool
            requires { first.table ≡ N.table }
        { sees_the_other(rt, shared, first, 0, one, two) },
        move || -> bool
            requires { second.table ≡ N.table }
        { sees_the_other(rt, shared, second, 6, two, one) },
    ))
}

#[test]
fn two_threads_inside(rt: HostRuntime) -> Result<(), Fail> {
    let blank = Blank::new(rt.alloc())?;
    assert_eq!(rt;
        both_inside::<Brand, _>(&rt, rt.alloc(), blank)?,
        (true, true)
    );
    Ok(())
}
