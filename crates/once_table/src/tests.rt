use crate::{Fits, OnceTable};
use indexmap::IndexMap;
use msb_values::{Copied, NoMemory, Text};
use std::alloc::Global;
use std::test::Fail;
use std::thread;
use std::thread::Threads;

/// Any value fits any key.
struct Any;

impl Fits<Text, Maker, ()> for Any {
    ghost fits = { λ world key value. Unit {0} };

    ghost equal_keys = { λ world one other value equal. (λ fits. fits, λ fits. fits) };
}

/// The number of the thread that made a value.
#[derive(Drop)]
struct Maker(usize);

impl Copied for Maker {
    fn copy(&self) -> Result<Maker, NoMemory> {
        Ok(Maker(self.0))
    }
}

type Table = OnceTable<Text, Maker, (), Any>;

/// Asks for the value of a key, which is made by this maker where there is none.
fn ask(table: &mut Table, key: &Text, maker: usize) -> Result<usize, NoMemory> {
    let Maker(maker) = table.find_or_make(key, || -> Result<Maker, NoMemory> {
        Ok(Maker(maker))
    })??;
    Ok(maker)
}

#[test]
fn a_value_is_made_once(rt: HostRuntime) -> Result<(), Fail> {
    let mut table: Table = OnceTable::open(rt.alloc(), &())?;
    let key = Text::of(rt.alloc(), "a")?;
    assert!(rt; ask(&mut table, &key, 3)? == 3);
    assert!(rt; ask(&mut table, &key, 4)? == 3);
    let other = Text::of(rt.alloc(), "b")?;
    assert!(rt; ask(&mut table, &other, 5)? == 5);
    Ok(())
}

/// What can't be made is made by the next that asks.
#[test]
fn a_value_that_is_not_made_is_missing(rt: HostRuntime) -> Result<(), Fail> {
    let mut table: Table = OnceTable::open(rt.alloc(), &())?;
    let key = Text::of(rt.alloc(), "a")?;
    let made = table.find_or_make(&key, || -> Result<Maker, NoMemory> { Err(NoMemory) })?;
    assert!(rt; made.is_err());
    assert!(rt; ask(&mut table, &key, 3)? == 3);
    Ok(())
}

/// Values that are put together are found.
#[test]
fn all_values_are_put(rt: HostRuntime) -> Result<(), Fail> {
    let mut table: Table = OnceTable::open(rt.alloc(), &())?;
    let key = Text::of(rt.alloc(), "a")?;
    let mut values = IndexMap::new(rt.alloc());
    values.insert(key.copy()?, Maker(3))?;
    table.put_all(&values)?;
    assert!(rt; ask(&mut table, &key, 4)? == 3);
    Ok(())
}

/// A thread that asks for the values of all keys, and whom it found to have made them.
#[derive(Drop)]
struct Asker {
    table: Table,
    makers: Vec<usize>,
    made: usize,
}

impl Asker {
    /// Asks for the value of a key, and makes it where it is missing. Others may ask meanwhile.
    fn ask(&mut self, number: usize, key: &Text) -> Result<(), NoMemory> {
        let made = &mut self.made;
        let Maker(maker) = self.table.find_or_make(key, || -> Result<Maker, NoMemory> {
            thread::yield_now();
            *made = made.saturating_add(1);
            Ok(Maker(number))
        })??;
        Ok(self.makers.push(maker)?)
    }
}

fn ask_all(asker: &mut Asker, number: usize, keys: &[Text]) -> Result<(), NoMemory> {
    for key in keys {
        asker.ask(number, key)?;
    }
    Ok(())
}

const ASKERS: usize = 8;

const KEYS: usize = 2_000;

fn keys(alloc: Global) -> Result<Vec<Text>, NoMemory> {
    let mut keys = Vec::new(alloc);
    for number in 0..KEYS {
        keys.push(Text::from(format!(in alloc; "{number}")?))?;
    }
    Ok(keys)
}

fn askers(alloc: Global) -> Result<Vec<Asker>, NoMemory> {
    let mut first: Table = OnceTable::open(alloc, &())?;
    let mut askers = Vec::new(alloc);
    for _ in 0..ASKERS {
        if let Some(table) = first.split(&())? {
            askers.push(Asker {
                table,
                makers: Vec::new(alloc),
                made: 0,
            })?;
        }
    }
    Ok(askers)
}

/// Each of several threads asks for all keys: each value is made once, and all find the same.
#[test]
fn threads_make_each_value_once(rt: HostRuntime) -> Result<(), Fail> {
    let keys = keys(rt.alloc())?;
    let mut askers = askers(rt.alloc())?;
    thread::for_each_mut(
        &rt,
        askers.as_mut_slice(),
        ASKERS,
        &|number, asker| drop(ask_all(asker, number, keys.as_slice())),
    );
    let mut made = 0usize;
    for asker in askers.iter() {
        made = made.saturating_add(asker.made);
        assert!(rt; asker.makers.len() == KEYS);
        assert!(rt; asker.makers.as_slice() == askers[0].makers.as_slice());
    }
    assert!(rt; askers.len() == ASKERS && made == KEYS);
    Ok(())
}
