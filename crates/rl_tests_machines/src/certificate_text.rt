use rl_certificate::{Access, Apart, Certificate, Letter, certificate_text};
use rl_model::{Entry, Root};
use rl_types::{EntryId, List, Name};
use std::alloc::{AllocError, Global};
use std::test::Fail;

fn entry(alloc: Global) -> Result<Entry, AllocError> {
    Ok(Entry {
        name: Name::new(Vec::from_slice(alloc, b"main")?),
        root: Root::Scanner(List::new(alloc)),
        places: List::new(alloc),
    })
}

fn word(alloc: Global) -> Result<Vec<Letter>, AllocError> {
    [Letter { key: 97, truths: 0 }, Letter { key: -1, truths: 5 }].to_vec(alloc)
}

#[test]
fn lines_of_words(rt: HostRuntime) -> Result<(), Fail> {
    let alloc = rt.alloc();
    let mut entries = Vec::new(alloc);
    entries.push(entry(alloc)?)?;
    let mut access = Vec::new(alloc);
    access.push(Access {
        state: 1,
        entry: EntryId(1),
        word: Vec::new(alloc),
    })?;
    access.push(Access {
        state: 2,
        entry: EntryId(1),
        word: word(alloc)?,
    })?;
    let mut apart = Vec::new(alloc);
    apart.push(Apart {
        low: 1,
        high: 2,
        word: Vec::new(alloc),
    })?;
    let cert = Certificate { access, apart };
    let Ok(text) = certificate_text(alloc, b"one", entries.as_slice(), &cert) else {
        return Ok(());
    };
    assert_eq!(rt;
        text.as_slice(),
        b"machine one\naccess 1 main\naccess 2 main 97/0 -1/5\napart 1 2\n".as_slice()
    );
    Ok(())
}
