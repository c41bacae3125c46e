//! Tables of the words of checks: behind each arrow the run whose report is checked, or the word at which the words go wrong.

use crate::tests::agrees;
use std::test::Fail;

const CHECKS: &str = "\
check sync components => check sync 1000000 components snap 1 random 0
check sync colour => check sync 1000000 colour snap 1 random 0
check sync sssp --source 0 => check sync 1000000 sssp 0 snap 1 random 0
check sync sssp --format adj --rounds 3 --source 4294967295 => check sync 3 sssp 4294967295 adj 1 random 0
check sync rank --tolerance 18446744073709551615 => check sync 1000000 rank 18446744073709551615 snap 1 random 0
check sync tree --source 7 => check sync 1000000 tree 7 snap 1 random 0
check async components => check serial 1000000000 components snap 1 random 0
check async colour --serial => check serial 1000000000 colour snap 1 random 0
check async sssp --source 0 => check serial 1000000000 sssp 0 snap 1 random 0
check async rank --serial --tolerance 0 => check serial 1000000000 rank 0 snap 1 random 0
check async tree --source 7 => check serial 1000000000 tree 7 snap 1 random 0
check async components --format tsv --fuel 4294967295 => check serial 4294967295 components tsv 1 random 0
check async components --serial --fuel 0 => check serial 0 components snap 1 random 0
check async components --virtual 7 => check virtual 1000000000 7 components snap 1 random 0
check async tree --fuel 3 --virtual 7 --source 1 => check virtual 3 7 tree 1 snap 1 random 0";

#[test]
fn words_name_the_run_whose_report_is_checked(rt: HostRuntime) -> Result<(), Fail> {
    agrees(&rt, rt.alloc(), CHECKS)
}

const WRONG_CHECKS: &str = "\
Check sync components => word 1
check => word 2
check components => word 2
check check sync components => word 2
check --format tsv => word 2
check sync => word 3
check async => word 3
check sync async => word 3
check sync check => word 3
check sync flow => word 3
check async --serial => word 3
sync check components => word 2
sync components check => word 3
check sync sssp => word 4
check async sssp => word 4
check async sssp --serial => word 5
check sync components --serial => word 4
check sync components --fuel 1 => word 4
check sync components --virtual 1 => word 4
check async components --serial --virtual 1 => word 5
check async components --virtual 1 --serial => word 6
check sync colour --source 1 => word 4
check async components --rounds 1 => word 4
check async components --serial 1 => word 5
check async components --fuel => word 5
check async components --fuel 4294967296 => word 5
check async tree --source 1 --serial --source 1 => word 7
check sync tree --format tsv --rounds 5 => word 8";

#[test]
fn words_of_a_check_have_their_place(rt: HostRuntime) -> Result<(), Fail> {
    agrees(&rt, rt.alloc(), WRONG_CHECKS)
}

const CACHED_CHECKS: &str = "\
check sync components --cache => check sync 1000000 components snap 1 random 0 cache
check sync sssp --cache --source 4 => check sync 1000000 sssp 4 snap 1 random 0 cache
check sync rank --rounds 5 --cache --tolerance 7 => check sync 5 rank 7 snap 1 random 0 cache
check sync tree --source 7 --workers 2 --cache => check sync 1000000 tree 7 snap 2 random 0 cache
check async components --cache => check serial 1000000000 components snap 1 random 0 cache
check async sssp --source 4 --cache --fuel 3 => check serial 3 sssp 4 snap 1 random 0 cache
check async rank --cache --virtual 3 => check virtual 1000000000 3 rank 0 snap 1 random 0 cache
check async tree --virtual 3 --cache --source 7 => check virtual 1000000000 3 tree 7 snap 1 random 0 cache
check sync colour --cache => word 4
check async colour --cache => word 4
check async colour --virtual 3 --cache => word 6
check sync sssp --cache => word 5
check sync components --cache --cache => word 5
check sync components --cache 1 => word 5
check async components --serial --cache => word 5
check async components --cache --serial => word 5
check async components --cache --virtual 3 --serial => word 7
check async components --cache --serial --virtual 3 => word 5";

#[test]
fn a_check_of_all_programs_but_colour_may_count_each_vertex_once(
    rt: HostRuntime,
) -> Result<(), Fail> {
    agrees(&rt, rt.alloc(), CACHED_CHECKS)
}
