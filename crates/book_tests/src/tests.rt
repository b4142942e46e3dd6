// Each book is used at the three kinds of record that the reader keeps.
use books::{DirectBook, Entry, LookupHelper, ProbingBook, is_empty};
use records::Error;

#[derive(Clone, Copy, PartialEq, Eq, Debug)]
struct TypeHandle {
    index: u32,
}

#[derive(Clone, Copy, PartialEq, Eq, Debug)]
struct Value {
    handle: u32,
    ty: u32,
}

#[derive(Clone, Copy, PartialEq, Eq, Debug)]
struct Couple {
    image: u32,
    sampler: u32,
}

fn of_image(image: u32) -> Couple {
    Couple { image, sampler: 9 }
}

// The number and the place of a refusal.
fn fault(answer: Result<(), Error>) -> Option<(u8, usize)> {
    match answer {
        Ok(()) => None,
        Err(error) => {
            let fault = error.fault();
            Some((fault.number, fault.place))
        }
    }
}

const TAKEN: Option<(u8, usize)> = Some((6, 0));

const FULL: Option<(u8, usize)> = Some((15, 0));

#[test]
fn direct_refuses(rt: HostRuntime) {
    let mut cells: [Option<TypeHandle>; 4] = [None; 4];
    let mut book = DirectBook::new(&mut cells);
    assert_eq!(rt; fault(book.put(0, TypeHandle { index: 1 })), TAKEN);
    assert_eq!(rt; fault(book.put(4, TypeHandle { index: 1 })), TAKEN);
    assert_eq!(rt; fault(book.put(3, TypeHandle { index: 7 })), None);
    assert_eq!(rt; fault(book.put(3, TypeHandle { index: 8 })), TAKEN);
    assert_eq!(rt; book.find(3), Some(TypeHandle { index: 7 }));
    assert_eq!(rt; book.find(0), None);
    assert_eq!(rt; book.find(4), None);
    assert_eq!(rt; (book.size(), book.bound(), book.limit()), (1, 4, 3));
}

#[test]
fn direct_full_has_every_id(rt: HostRuntime) {
    let value = Value { handle: 5, ty: 2 };
    let mut cells: [Option<Value>; 3] = [None; 3];
    let mut book = DirectBook::new(&mut cells);
    assert_eq!(rt; fault(book.put(1, value)), None);
    assert_eq!(rt; fault(book.put(2, value)), None);
    assert_eq!(rt; fault(book.put(2, value)), TAKEN);
    assert_eq!(rt; fault(book.put(3, value)), TAKEN);
    assert_eq!(rt; book.size(), book.limit());
}

#[test]
fn direct_without_legal_ids(rt: HostRuntime) {
    let mut cells: [Option<Value>; 1] = [None; 1];
    let mut book = DirectBook::new(&mut cells);
    assert_eq!(rt; fault(book.put(1, Value { handle: 5, ty: 2 })), TAKEN);
    assert_eq!(rt; (book.bound(), book.limit()), (1, 0));
}

// What stands in cell 0 is no record.
#[test]
fn direct_keeps_what_the_cells_hold(rt: HostRuntime) {
    let mut cells = [Some(of_image(3)), None, Some(of_image(4))];
    let book = DirectBook::new(&mut cells);
    assert_eq!(rt; book.find(0), None);
    assert_eq!(rt; book.find(2), Some(of_image(4)));
    assert_eq!(rt; book.size(), 1);
    assert!(rt; !is_empty(&book));
}

#[test]
fn probing_refuses(rt: HostRuntime) {
    let mut cells: [Option<Entry<TypeHandle>>; 3] = [None; 3];
    let mut book = ProbingBook::new(&mut cells);
    assert_eq!(rt; fault(book.put(0, TypeHandle { index: 1 })), TAKEN);
    assert_eq!(rt; fault(book.put(4_194_303, TypeHandle { index: 1 })), TAKEN);
    assert_eq!(rt; fault(book.put(4_194_302, TypeHandle { index: 7 })), None);
    assert_eq!(rt; fault(book.put(4_194_302, TypeHandle { index: 8 })), TAKEN);
    assert_eq!(rt; book.find(4_194_302), Some(TypeHandle { index: 7 }));
    assert_eq!(rt; book.find(4_194_301), None);
    assert_eq!(rt;
        (book.size(), book.bound(), book.limit()),
        (1, 4_194_303, 3)
    );
}

// A present id and one that is not legal are told before the want of cells.
#[test]
fn probing_full(rt: HostRuntime) {
    let value = Value { handle: 5, ty: 2 };
    let mut cells: [Option<Entry<Value>>; 2] = [None; 2];
    let mut book = ProbingBook::new(&mut cells);
    assert_eq!(rt; fault(book.put(5, value)), None);
    assert_eq!(rt; fault(book.put(7, value)), None);
    assert_eq!(rt; fault(book.put(9, value)), FULL);
    assert_eq!(rt; fault(book.put(7, value)), TAKEN);
    assert_eq!(rt; fault(book.put(0, value)), TAKEN);
    assert_eq!(rt; (book.find(7), book.find(9)), (Some(value), None));
}

#[test]
fn probing_clears_its_cells(rt: HostRuntime) {
    let item = of_image(3);
    let mut cells = [Some(Entry { id: 5, item }); 2];
    let book = ProbingBook::new(&mut cells);
    assert_eq!(rt; book.find(5), None);
    assert!(rt; is_empty(&book));
}

// Two runs of ids fill nine tenths of the cells. Nothing is forgotten, and the last tenth can still be filled.
#[test]
fn probing_at_nine_tenths(rt: HostRuntime) {
    let mut cells: [Option<Entry<Couple>>; 100] = [None; 100];
    let mut book = ProbingBook::new(&mut cells);
    for id in 1..46 {
        assert_eq!(rt; fault(book.put(id, of_image(id))), None);
        assert_eq!(rt; fault(book.put(id + 5000, of_image(id))), None);
    }
    assert_eq!(rt; book.size(), 90);
    for id in 1..46 {
        assert_eq!(rt; book.find(id), Some(of_image(id)));
        assert_eq!(rt; book.find(id + 5000), Some(of_image(id)));
        assert_eq!(rt; book.find(id + 1000), None);
    }
    for id in 46..56 {
        assert_eq!(rt; fault(book.put(id, of_image(id))), None);
    }
    assert_eq!(rt; fault(book.put(56, of_image(56))), FULL);
}
