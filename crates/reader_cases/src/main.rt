//! Reads kernel files from its input, with a line `----` between each two, and prints each as a kernel, or the line of its refusal. A
//! printed kernel is read and printed once more, and what differs then is told. A file that begins with the line `# marked` is printed
//! with a tag at each iname, the inames in reverse as the priority, and local temporaries; one that begins with `# expanded` with its
//! rules replaced, behind the ids of the instructions that use each rule; of one that begins with `# counted` the count of its names.
#![tactic(auto)]

mod told;

use std::io::{self, Read};
use told::tell;

fn main(rt: HostRuntime) -> io::Result<()> {
    let mut text = Vec::new(rt.alloc());
    rt.stdin().read_to_end(&mut text)?;
    let mut file = Vec::new(rt.alloc());
    let mut is_begun = false;
    for line in text.split(|byte| *byte == b'\n') {
        if line == b"----".as_slice() {
            tell(&rt, &file)?;
            println!(rt; "----")?;
            file.clear();
            is_begun = false;
        } else {
            if is_begun {
                file.push(b'\n')?;
            }
            file.extend_from_slice(line)?;
            is_begun = true;
        }
    }
    tell(&rt, &file)
}
