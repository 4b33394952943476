// Worked examples of drawing: by the definitions, and run.
#![tactic(auto)]

ghost use Rattle.mask_examples.specs.Examples.{Examples};

// The examples are what the definitions of drawing give.
pub fn examples_hold()
    ensures { Examples }
{}

#[cfg(test)]
mod borders;
#[cfg(test)]
mod widest;

#[cfg(test)]
mod tests {
    use masks::permutations::draw_permutation;
    use masks::source::Source;

    #[test]
    fn word_accepted(rt: HostRuntime) {
        let mut source = Source { left: &[255, 254] };
        assert_eq!(rt; source.number_below(5), Some(4));
        assert_eq!(rt; source.left.len(), 0);
    }

    #[test]
    fn word_skipped(rt: HostRuntime) {
        let mut source = Source {
            left: &[255, 255, 255, 254],
        };
        assert_eq!(rt; source.number_below(5), Some(4));
        assert_eq!(rt; source.left.len(), 0);
    }

    #[test]
    fn four_places(rt: HostRuntime) {
        let mut source = Source {
            left: &[0, 6, 0, 5, 0, 1],
        };
        let mut positions = [9; 4];
        assert_eq!(rt; draw_permutation(&mut source, &mut positions), Some(()));
        assert_eq!(rt; positions, [0, 1, 3, 2]);
        assert_eq!(rt; source.left.len(), 0);
    }

    #[test]
    fn one_byte_left(rt: HostRuntime) {
        let mut source = Source {
            left: &[0, 6, 0, 5, 0],
        };
        let mut positions = [9; 4];
        assert_eq!(rt; draw_permutation(&mut source, &mut positions), None);
    }
}
