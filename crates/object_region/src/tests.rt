ghost use Rattle.std.specs.Prelude.{◌≡◌};

use crate::Places;
use a1_base::Addr;

fn at(region: u32, offset: u32) -> Addr
    ensures region { result.region ≡ region }
    ensures offset { result.offset ≡ offset }
{
    Addr { region, offset }
}

#[test]
fn takes_the_places_of_a_node_in_turn(rt: HostRuntime) {
    let mut places = Places::new(rt.alloc(), 1, 3);
    assert_eq!(rt; places.regions(), 0);
    for offset in 0..4_095 {
        assert_eq!(rt; places.take(), Ok(at(1, offset)));
    }
    let last = places.take();
    assert_eq!(rt; last, Ok(at(1, 4_095)));
    assert_eq!(rt; places.take(), Ok(at(4, 0)));
    assert_eq!(rt; places.regions(), 2);
    if let Ok(place) = last {
        places.give(place);
    }
    assert_eq!(rt; places.take(), last, "the freed place comes first");
    assert_eq!(rt; places.take(), Ok(at(4, 1)));
}

#[test]
fn takes_in_a_claimed_region_first(rt: HostRuntime) {
    let mut places = Places::new(rt.alloc(), 1, 3);
    assert_eq!(rt; places.claim(at(4, 1)), Ok(()));
    assert_eq!(rt; places.take(), Ok(at(4, 0)));
    for offset in 2..4_096 {
        assert_eq!(rt; places.take(), Ok(at(4, offset)));
    }
    for offset in 0..4_096 {
        assert_eq!(rt; places.take(), Ok(at(1, offset)));
    }
    assert_eq!(rt; places.take(), Ok(at(7, 0)));
    assert_eq!(rt; places.regions(), 3);
}
