use crate::places::Places;
use a1_base::Txt;
use std::alloc::Global;
use std::test::Fail;

fn name(alloc: Global, text: &str) -> Result<Txt, Fail> {
    Ok(Txt::from_text(alloc, text)?)
}

fn puts(places: &mut Places<Txt, u64>, alloc: Global, text: &str, value: u64) -> Result<(), Fail> {
    let key = name(alloc, text)?;
    let again = key.copy(alloc)?;
    places.put(key, again, value)?;
    Ok(())
}

fn shown(places: &Places<Txt, u64>, alloc: Global) -> Result<String, Fail> {
    let mut text = String::new(alloc);
    for (key, value) in places.entries(alloc)? {
        text.push_str(format!(in alloc; "{}={} ", key.as_text(), value)?.as_str())?;
    }
    Ok(text)
}

#[test]
fn places_go_back_to_what_was_kept(rt: HostRuntime) -> Result<(), Fail> {
    let alloc = rt.alloc();
    let mut places = Places::new(alloc);
    puts(&mut places, alloc, "b", 1)?;
    puts(&mut places, alloc, "a", 2)?;
    places.keep();
    puts(&mut places, alloc, "b", 3)?;
    places.take(name(alloc, "b")?)?;
    puts(&mut places, alloc, "b", 4)?;
    places.take(name(alloc, "a")?)?;
    places.take(name(alloc, "z")?)?;
    puts(&mut places, alloc, "c", 5)?;
    assert_eq!(rt; shown(&places, alloc)?.as_str(), "b=4 c=5 ");
    places.back();
    assert_eq!(rt; shown(&places, alloc)?.as_str(), "a=2 b=1 ");
    assert_eq!(rt; places.get(&name(alloc, "b")?), Some(&1));
    assert_eq!(rt; places.get(&name(alloc, "c")?), None);
    places.take(name(alloc, "a")?)?;
    places.keep();
    places.back();
    assert_eq!(rt; shown(&places, alloc)?.as_str(), "b=1 ");
    Ok(())
}
